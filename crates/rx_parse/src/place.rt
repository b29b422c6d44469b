//! Where the reader of a pattern stands between two bytes.

ghost use Rattle.std.specs.Prelude.{◌≡◌};
ghost use Rattle.rx_parse.specs.Kinds.{kind_of as kind_at};

/// What a byte is outside of escapes, classes and braces.
#[derive(Clone, Copy)]
pub enum Kind {
    Literal,
    Dot,
    Backslash,
    Bracket,
    Opening,
    Closing,
    Bar,
    Asterisk,
    Plus,
    Question,
    Brace,
    Caret,
    Dollar,
    /// A byte outside of the alphabet.
    Foreign,
}

/// Where the reader stands in a class.
#[derive(Clone, Copy)]
pub enum Class {
    /// Right behind `[`.
    Fresh,
    /// Right behind `[^`.
    Negated,
    /// Behind a single, which may begin a range, and whether it is a bare `[`.
    Single(u8, bool),
    /// Behind any other item, and whether it ends in a bare `[`.
    Item(bool),
    /// Behind a single and `-`.
    Ranged(u8),
    /// Behind a `-` that has to be the last item.
    Dashed,
    /// Behind a backslash.
    Slashed,
    /// Behind a single, `-` and a backslash.
    RangeSlashed(u8),
}

/// Where the reader stands in braces.
#[derive(Clone, Copy)]
pub enum Braces {
    /// Behind `{` and so many digits, with their value.
    Least(u8, u8),
    /// Behind the first number, a comma and so many digits, with their value.
    Most(u8, u8, u8),
}

/// Where the reader stands.
#[derive(Clone, Copy)]
pub enum Place {
    /// Nothing was read.
    Begin,
    /// Right behind the flag.
    Begun,
    /// A piece may begin, and no quantifier may come.
    Ready,
    /// Behind an atom.
    Atomic,
    /// Behind a quantifier.
    Counted,
    /// Behind the last anchor.
    Ended,
    /// Behind a backslash.
    Escaped,
    /// Behind `(`, and whether it is the first byte.
    Opened(bool),
    /// Behind `(?`, and whether it is at the start.
    Marked(bool),
    /// Behind `(?i` at the start.
    Flagging,
    InClass(Class),
    InBraces(Braces),
}

/// The kind of a byte.
pub fn kind_of(byte: u8) -> Kind
    ensures { result ≡ kind_at byte }
{
    match byte {
        b'\\' => Kind::Backslash,
        b'.' => Kind::Dot,
        b'[' => Kind::Bracket,
        b'(' => Kind::Opening,
        b')' => Kind::Closing,
        b'|' => Kind::Bar,
        b'*' => Kind::Asterisk,
        b'+' => Kind::Plus,
        b'?' => Kind::Question,
        b'{' => Kind::Brace,
        b'^' => Kind::Caret,
        b'$' => Kind::Dollar,
        32..=126 => Kind::Literal,
        _ => Kind::Foreign,
    }
}
