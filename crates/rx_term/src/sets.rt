//! Sets of the bytes 0 to 127.

ghost use Rattle.std.specs.Prelude.{◌≡◌};
ghost use Rattle.rx_term.specs.Term.{has_byte};

/// A set of bytes: bit k stands for byte k, so bytes from 128 on are in no set.
#[derive(Clone, Copy, PartialEq, Eq, Hash)]
pub struct ByteSet(pub u128);

impl ByteSet {
    /// Whether the byte is in the set.
    pub fn has(self, byte: u8) -> bool
        ensures { result ≡ has_byte self byte }
    {
        byte < 128 && (self.0 >> u32::from(byte)) & 1 == 1
    }
}
