// The alphabets of requests as byte sets.
ghost use Rattle.std.specs.Prelude.{◌≡◌};
ghost use Rattle.text_base.specs.Alphabets.{between, is_printed, is_digit, is_authority_byte, is_token_byte, is_target_byte};
ghost use Rattle.rx_rows.specs.Sets.{set_where};

use rx_term::ByteSet;

/// The bytes 32 to 126.
pub fn printed() -> ByteSet
    ensures { result ≡ set_where is_printed }
{
    ByteSet(0x7fff_ffff_ffff_ffff_ffff_ffff_0000_0000)
}

/// The bytes 33 to 126.
pub fn visible() -> ByteSet
    ensures { result ≡ set_where (between 33 126) }
{
    ByteSet(0x7fff_ffff_ffff_ffff_ffff_fffe_0000_0000)
}

/// The decimal digits.
pub fn digits() -> ByteSet
    ensures { result ≡ set_where is_digit }
{
    ByteSet(0x03ff_0000_0000_0000)
}

/// The bytes of an authority: letters, digits and `-._:[]`.
pub fn authority_bytes() -> ByteSet
    ensures { result ≡ set_where is_authority_byte }
{
    ByteSet(0x07ff_fffe_afff_fffe_07ff_6000_0000_0000)
}

/// The bytes of a token: letters, digits and ``!#$%&'*+-.^_`|~``.
pub fn token_bytes() -> ByteSet
    ensures { result ≡ set_where is_token_byte }
{
    ByteSet(0x57ff_ffff_c7ff_fffe_03ff_6cfa_0000_0000)
}

/// The bytes of a target behind its first: visible ones without `#`.
pub fn target_bytes() -> ByteSet
    ensures { result ≡ set_where is_target_byte }
{
    ByteSet(0x7fff_ffff_ffff_ffff_ffff_fff6_0000_0000)
}
