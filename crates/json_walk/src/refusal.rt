// Why a file isn't taken, and where.
ghost use Rattle.std.specs.Prelude.{◌≡◌};
ghost use Rattle.json_walk.specs.AtTop.{IsRefusal};
ghost use Rattle.json_walk.specs.declared.refusal.ReadFail.TheVariants.{OutOfMemory, Refused};

use std::alloc::{AllocError, AllocFailed, Global};
use text_base::Text;

/// What is wrong at a place of a file.
#[derive(Clone, Copy, Debug, PartialEq, Eq)]
pub enum Kind {
    /// The bytes are no JSON.
    Syntax,
    /// No member of the message has this name.
    UnknownField,
    /// The value is of another kind than the field's: no object, text, truth, whole number or list.
    WrongKind,
    /// A field or a group that has to be there isn't.
    Missing,
    /// A second member stands for one field or one group, or two fields contradict each other.
    Conflict,
    /// A number or a name is none of those that the field takes.
    OutOfRange,
    /// A domain is the same as an earlier one.
    Duplicate,
    /// A list, a text or a pattern is longer than its limit.
    TooMany,
    /// A matcher or a predicate is nested past its limit.
    TooDeep,
    /// The text isn't of the field's kind.
    BadText,
    /// The text is no pattern, and the prefix of `at` bytes is the longest that begins one.
    BadRegex { at: u32 },
    /// The value is lawful for Envoy, and not in the part of it that is read.
    NotInProfile,
}

/// The first offence of a file, and where it is, as a JSON pointer.
#[derive(Debug, Drop)]
pub struct Refusal {
    pub place: Text,
    pub kind: Kind,
}

/// Why nothing was read.
#[derive(Debug, Drop)]
pub enum ReadFail {
    Refused(Refusal),
    OutOfMemory,
}

impl From<AllocError> for ReadFail {
    ghost from_gives = { λ _ e. e ≡ OutOfMemory };

    fn from(_: AllocError) -> Self {
        ReadFail::OutOfMemory
    }
}

impl<T: Drop> From<AllocFailed<T>> for ReadFail {
    ghost from_gives = { λ _ e. e ≡ OutOfMemory };

    fn from(_: AllocFailed<T>) -> Self {
        ReadFail::OutOfMemory
    }
}

/// The refusal of this kind at the empty place.
pub fn refused(alloc: Global, kind: Kind) -> ReadFail
    ensures { IsRefusal kind result }
{
    match Text::of(alloc, "") {
        Ok(place) => ReadFail::Refused(Refusal { place, kind }),
        Err(_) => ReadFail::OutOfMemory,
    }
}

/// The refusal of this kind at the place.
pub fn refused_at(place: Text, kind: Kind) -> ReadFail
    ensures { result ≡ Refused (record { place = place; kind = kind }) }
{
    ReadFail::Refused(Refusal { place, kind })
}
