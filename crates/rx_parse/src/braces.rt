//! The reader in braces.

ghost use Rattle.std.specs.Prelude.{◌≡◌, IfOk};
ghost use Rattle.rx_parse.specs.Kinds.{reaches as reaches_test};
ghost use Rattle.rx_parse.specs.Answer.{braces_of, braces_digit};
ghost use Rattle.rx_term.specs.Pattern.{IsDigit};

use crate::bytes::is_digit;
use crate::made::Often;
use crate::place::{Braces, Place};
use crate::reader::Reader;
use std::alloc::{AllocError, Global};

/// Whether some number of at most three digits, from the least one to 255, begins with so many digits of that value.
fn reaches(least: u32, digits: u8, value: u32) -> bool
    ensures { result ≡ reaches_test least digits value }
{
    value < 256
        && (least <= value
            || (digits < 3 && 10 * value < 256 && least < 10 * value + 10)
            || (digits < 2 && 100 * value < 256 && least < 100 * value + 100))
}

impl Reader {
    /// A digit of the least number, of which so many digits were read.
    fn least_digit(self, digits: u8, value: u8, byte: u8) -> Option<Reader>
        requires { IsDigit byte }
        ensures { result ≡ braces_digit (Braces.Least digits value) self byte }
    {
        let next = 10 * (value as u32) + (byte - b'0') as u32;
        if digits < 3 && next < 256 {
            let braces = Braces::Least(digits + 1, next as u8);
            Some(self.at(Place::InBraces(braces)))
        } else {
            self.refused()
        }
    }

    /// A byte behind so many digits of the least number.
    fn least(
        self,
        alloc: Global,
        digits: u8,
        value: u8,
        byte: u8,
    ) -> Result<Option<Reader>, AllocError>
        ensures { IfOk result (λ next. next ≡ braces_of (Braces.Least digits value) self byte) }
    {
        if is_digit(byte) {
            Ok(self.least_digit(digits, value, byte))
        } else if byte == b',' && digits > 0 {
            Ok(Some(self.at(Place::InBraces(Braces::Most(value, 0, 0)))))
        } else if byte == b'}' && digits > 0 {
            Ok(Some(self.quantify(alloc, Often::Exactly(value))?))
        } else {
            Ok(self.refused())
        }
    }

    /// A digit of the greatest number, of which so many digits were read.
    fn most_digit(self, least: u8, digits: u8, value: u8, byte: u8) -> Option<Reader>
        requires { IsDigit byte }
        ensures { result ≡ braces_digit (Braces.Most least digits value) self byte }
    {
        let next = 10 * (value as u32) + (byte - b'0') as u32;
        if digits < 3 && reaches(least as u32, digits + 1, next) {
            let braces = Braces::Most(least, digits + 1, next as u8);
            Some(self.at(Place::InBraces(braces)))
        } else {
            self.refused()
        }
    }

    /// A byte behind so many digits of the greatest number.
    fn most(
        self,
        alloc: Global,
        least: u8,
        digits: u8,
        value: u8,
        byte: u8,
    ) -> Result<Option<Reader>, AllocError>
        ensures { IfOk result (λ next. next ≡ braces_of (Braces.Most least digits value) self byte) }
    {
        if is_digit(byte) {
            Ok(self.most_digit(least, digits, value, byte))
        } else if byte != b'}' {
            Ok(self.refused())
        } else if digits == 0 {
            Ok(Some(self.quantify(alloc, Often::AtLeast(least))?))
        } else if least <= value {
            Ok(Some(self.quantify(alloc, Often::Between(least, value))?))
        } else {
            Ok(self.refused())
        }
    }

    /// A byte in braces.
    pub fn in_braces(
        self,
        alloc: Global,
        braces: Braces,
        byte: u8,
    ) -> Result<Option<Reader>, AllocError>
        ensures { IfOk result (λ next. next ≡ braces_of braces self byte) }
    {
        match braces {
            Braces::Least(digits, value) => self.least(alloc, digits, value, byte),
            Braces::Most(least, digits, value) => self.most(alloc, least, digits, value, byte),
        }
    }
}
