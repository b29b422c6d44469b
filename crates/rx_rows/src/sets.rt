// Byte sets made of others.
ghost use Rattle.std.specs.Prelude.{◌≡◌, ◌<◌, ◌==◌, ◌&&◌, ◌||◌, not, nat_lt};
ghost use Rattle.text_base.specs.Alphabets.{is_printed};
ghost use Rattle.rx_term.specs.Term.{has_byte};
ghost use Rattle.rx_rows.specs.Sets.{set_where, is_bit, stands_for};

use crate::alphabets::printed;
use rx_term::ByteSet;

/// The byte alone.
pub fn only(byte: u8) -> ByteSet
    requires { byte < 128 }
    ensures { result ≡ set_where (λ c. c == byte) }
{
    ByteSet(1 << u32::from(byte))
}

/// The bytes below the bound.
pub fn below(bound: u8) -> ByteSet
    requires { bound < 128 }
    ensures { result ≡ set_where (λ c. nat_lt c bound) }
{
    ByteSet((1 << u32::from(bound)) - 1)
}

// The two numbers and not their sets: in a proof a number that a function takes is known to fit its type.
fn bits_of_either(first: u128, second: u128) -> ByteSet
    ensures { result ≡ set_where (λ c. is_bit first c || is_bit second c) }
{
    ByteSet(first | second)
}

/// The bytes of either set.
pub fn either(first: ByteSet, second: ByteSet) -> ByteSet
    ensures { result ≡ set_where (λ c. has_byte first c || has_byte second c) }
{
    bits_of_either(first.0, second.0)
}

fn bits_without(first: u128, second: u128) -> ByteSet
    ensures { result ≡ set_where (λ c. is_bit first c && not (is_bit second c)) }
{
    ByteSet(first & !second)
}

/// The bytes of the first set that the second one lacks.
pub fn less(first: ByteSet, second: ByteSet) -> ByteSet
    ensures { result ≡ set_where (λ c. has_byte first c && not (has_byte second c)) }
{
    bits_without(first.0, second.0)
}

/// Any printed byte but this one.
pub fn printed_but(byte: u8) -> ByteSet
    requires { byte < 128 }
    ensures { result ≡ set_where (λ c. is_printed c && not (c == byte)) }
{
    less(printed(), only(byte))
}

/// What stands for a byte of a text, with both cases of a letter where case is ignored.
pub fn letter(fold: bool, byte: u8) -> ByteSet
    requires { byte < 128 }
    ensures { result ≡ set_where (stands_for fold byte) }
{
    if fold {
        either(
            only(byte.to_ascii_lowercase()),
            only(byte.to_ascii_uppercase()),
        )
    } else {
        only(byte)
    }
}
