//! Sets of bytes, from tests of single bytes.

ghost use Rattle.std.specs.Prelude.{◌≡◌};
ghost use Rattle.rx_parse.specs.Kinds.{is_within as within_test, is_any as any_test, is_digit as digit_test, is_punct as punct_test, is_set_letter as letter_test};
ghost use Rattle.rx_parse.specs.Sets.{is_word as word_test, is_in_range as range_test, is_in_escape as escape_test, holds as holds_test};
ghost use Rattle.rx_parse.specs.Answer.{set_with};

use rx_term::ByteSet;

/// Which bytes a part of a pattern stands for.
#[derive(Clone, Copy)]
pub enum Bytes {
    /// The bytes of the alphabet.
    Any,
    /// From one byte up to another, and with the flag their other cases.
    Range(bool, u8, u8),
    /// The bytes of the set escape with this letter.
    Escape(u8),
    /// The bytes of either set.
    Both(ByteSet, ByteSet),
    /// The bytes of the alphabet outside of the set.
    Without(ByteSet),
}

/// Whether the byte is from the first one up to the second.
pub fn is_within(low: u8, high: u8, byte: u8) -> bool
    ensures { result ≡ within_test low high byte }
{
    low <= byte && byte <= high
}

/// Whether the byte is of the alphabet.
pub fn is_any(byte: u8) -> bool
    ensures { result ≡ any_test byte }
{
    is_within(32, 126, byte)
}

/// Whether the byte is a decimal digit.
pub fn is_digit(byte: u8) -> bool
    ensures { result ≡ digit_test byte }
{
    is_within(b'0', b'9', byte)
}

/// Whether the byte is a letter, a digit or `_`.
fn is_word(byte: u8) -> bool
    ensures { result ≡ word_test byte }
{
    is_digit(byte) || is_within(b'A', b'Z', byte) || is_within(b'a', b'z', byte) || byte == b'_'
}

/// Whether the byte is punctuation, as `_` is.
pub fn is_punct(byte: u8) -> bool
    ensures { result ≡ punct_test byte }
{
    is_within(33, 47, byte)
        || is_within(58, 64, byte)
        || is_within(91, 96, byte)
        || is_within(123, 126, byte)
}

/// Whether the letter names a set behind a backslash.
pub fn is_set_letter(byte: u8) -> bool
    ensures { result ≡ letter_test byte }
{
    byte == b'd' || byte == b'w' || byte == b's' || byte == b'D' || byte == b'W' || byte == b'S'
}

/// Whether the byte is in the range, or with the flag its other case.
fn is_in_range(fold: bool, low: u8, high: u8, byte: u8) -> bool
    ensures { result ≡ range_test fold low high byte }
{
    is_within(low, high, byte)
        || (fold
            && ((is_within(b'a', b'z', byte) && is_within(low, high, byte.saturating_sub(32)))
                || (is_within(b'A', b'Z', byte) && is_within(low, high, byte.saturating_add(32)))))
}

/// Whether the byte is in the set that the letter names.
fn is_in_escape(letter: u8, byte: u8) -> bool
    ensures { result ≡ escape_test letter byte }
{
    if letter == b'd' {
        is_digit(byte)
    } else if letter == b'w' {
        is_word(byte)
    } else if letter == b's' {
        byte == b' '
    } else if letter == b'D' {
        is_any(byte) && !is_digit(byte)
    } else if letter == b'W' {
        is_any(byte) && !is_word(byte)
    } else if letter == b'S' {
        is_any(byte) && !(byte == b' ')
    } else {
        false
    }
}

/// Whether the byte is among the bytes.
fn holds(bytes: Bytes, byte: u8) -> bool
    ensures { result ≡ holds_test bytes byte }
{
    match bytes {
        Bytes::Any => is_any(byte),
        Bytes::Range(fold, low, high) => is_in_range(fold, low, high, byte),
        Bytes::Escape(letter) => is_in_escape(letter, byte),
        Bytes::Both(first, second) => first.has(byte) || second.has(byte),
        Bytes::Without(set) => is_any(byte) && !set.has(byte),
    }
}

/// The set of the bytes.
pub fn set_of(bytes: Bytes) -> ByteSet
    ensures { result ≡ set_with bytes }
{
    let mut bits: u128 = 0;
    for i in 0u8..128 {
        bits = 2 * bits + u128::from(holds(bytes, 127 - i));
    }
    ByteSet(bits)
}
