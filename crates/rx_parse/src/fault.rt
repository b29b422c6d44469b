//! Why a text has no term.

ghost use Rattle.std.specs.Prelude.{◌≡◌};
ghost use Rattle.rx_parse.specs.declared.fault.RxFault.TheVariants.{OutOfMemory};
ghost use Rattle.rx_parse.specs.Results.{is_beyond as beyond_test, is_outside as outside_test};
ghost use Rattle.rx_parse.specs.Answer.{fault_at as fault_of_front};

use crate::place::{Class, Place};
use std::alloc::AllocError;

/// Why a text has no term. `at` is the length of the text's longest front that is the front of a pattern, in bytes.
#[derive(Clone, Copy, Debug, PartialEq, Eq)]
pub enum RxFault {
    /// No pattern is the text.
    Syntax { at: u32 },
    /// No pattern is the text, which isn't at its end there: the front ends inside an escape, inside braces or right
    /// behind `(?` or `(?i`, or `^`, `$` or `:` comes next.
    NotInSubset { at: u32 },
    /// The text is a pattern of more than 4,000 positions. Their number stays at 4,294,967,295.
    TooLarge { positions: u32 },
    /// Want of memory.
    OutOfMemory,
}

impl From<AllocError> for RxFault {
    ghost from_gives = { λ _ fault. fault ≡ OutOfMemory };

    fn from(_: AllocError) -> Self {
        RxFault::OutOfMemory
    }
}

/// Whether a fault behind the place is of a form that lies outside of the subset.
fn is_beyond(place: Place) -> bool
    ensures { result ≡ beyond_test place }
{
    match place {
        Place::Escaped | Place::Marked(_) | Place::Flagging | Place::InBraces(_) => true,
        Place::InClass(class) => match class {
            Class::Slashed | Class::RangeSlashed(_) => true,
            _ => false,
        },
        _ => false,
    }
}

/// Whether the fault at the byte behind the place is of such a form.
fn is_outside(place: Place, byte: u8) -> bool
    ensures { result ≡ outside_test place byte }
{
    is_beyond(place) || byte == b'^' || byte == b'$' || byte == b':'
}

/// The fault of a text whose front of `at` bytes ends at the place and doesn't go on with the byte.
pub fn fault_at(place: Place, byte: u8, at: u32) -> RxFault
    ensures { result ≡ fault_of_front place byte at }
{
    if is_outside(place, byte) {
        RxFault::NotInSubset { at }
    } else {
        RxFault::Syntax { at }
    }
}
