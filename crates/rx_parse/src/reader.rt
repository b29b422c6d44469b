//! The reader of a pattern.

ghost use Rattle.std.specs.Prelude.{◌≡◌, true, IfOk};
ghost use Rattle.rx_parse.specs.Kinds.{kind_of as kind_at};
ghost use Rattle.rx_parse.specs.Answer.{times_of, IsOrdered, at_place, new_reader, behind_atom, added, opened_group, left_group, barred, begun_class, ended, quantified, plain_of, begin_of, begun_of, atomic_of, counted_of, opened_of, marked_of, flagging_of, escaped_of};

use crate::bytes::{Bytes, is_punct, is_set_letter, set_of};
use crate::made::{Frame, Made, Often, one, repeat, row};
use crate::place::{Braces, Class, Kind, Place, kind_of};
use rx_term::ByteSet;
use sqlite_items::Items;
use std::alloc::{AllocError, Global};
use std::mem::replace;

/// A pattern that was read up to some byte.
#[derive(Drop)]
pub struct Reader {
    /// Whether letters stand for both of their cases.
    pub fold: bool,
    /// The choices around the open groups, the outermost first.
    pub outer: Items<Frame>,
    /// The choice that is being read.
    pub top: Frame,
    /// The atom or piece behind which the place is.
    pub pending: Made,
    /// Whether the class that is being read is a complement.
    pub negated: bool,
    /// The bytes of its items that were read whole.
    pub set: ByteSet,
    pub place: Place,
}

impl Reader {
    /// A reader that holds nothing of the pattern's body.
    pub fn new(alloc: Global, fold: bool, place: Place) -> Reader
        ensures { result ≡ new_reader fold place }
    {
        Reader {
            fold,
            outer: Items::new(alloc),
            top: Frame::new(alloc),
            pending: one(ByteSet(0)),
            negated: false,
            set: ByteSet(0),
            place,
        }
    }

    /// A reader with the same flag that holds nothing of the pattern's body.
    fn anew(self, alloc: Global, place: Place) -> Reader
        ensures { result ≡ new_reader self.fold place }
    {
        Reader::new(alloc, self.fold, place)
    }

    /// The same at another place.
    pub fn at(self, place: Place) -> Reader
        ensures { result ≡ at_place self place }
    {
        Reader { place, ..self }
    }

    /// Nothing, as no pattern goes on so.
    pub fn refused(self) -> Option<Reader>
        ensures { result ≡ None }
    {
        None
    }

    /// Behind an atom of these bytes.
    fn behind(self, bytes: Bytes) -> Reader
        ensures { result ≡ behind_atom self bytes }
    {
        Reader {
            pending: one(set_of(bytes)),
            place: Place::Atomic,
            ..self
        }
    }

    /// What is pending is a piece of the choice.
    pub fn add(mut self) -> Result<Reader, AllocError>
        ensures { IfOk result (λ reader. reader ≡ added self) }
    {
        let piece = replace(&mut self.pending, one(ByteSet(0)));
        self.top.pieces.push(piece)?;
        self.place = Place::Ready;
        Ok(self)
    }

    /// Goes into a group.
    fn open(mut self, alloc: Global) -> Result<Reader, AllocError>
        ensures { IfOk result (λ reader. reader ≡ opened_group self) }
    {
        let above = replace(&mut self.top, Frame::new(alloc));
        self.outer.push(above)?;
        self.place = Place::Ready;
        Ok(self)
    }

    /// Leaves the innermost group, if one is open.
    fn close(mut self, alloc: Global) -> Result<Option<Reader>, AllocError>
        ensures { IfOk result (λ left. left ≡ left_group self.outer self) }
    {
        let Some(above) = self.outer.pop() else {
            return Ok(self.refused());
        };
        let group = replace(&mut self.top, above);
        self.pending = group.finish(alloc)?;
        self.place = Place::Atomic;
        Ok(Some(self))
    }

    /// Ends the last alternative.
    fn bar(mut self, alloc: Global) -> Result<Reader, AllocError>
        ensures { IfOk result (λ reader. reader ≡ barred self) }
    {
        let pieces = replace(&mut self.top.pieces, Items::new(alloc));
        let last = row(alloc, pieces)?;
        self.top.branches.push(last)?;
        self.place = Place::Ready;
        Ok(self)
    }

    /// Goes into a class.
    fn class(self) -> Reader
        ensures { result ≡ begun_class self }
    {
        Reader {
            negated: false,
            set: ByteSet(0),
            place: Place::InClass(Class::Fresh),
            ..self
        }
    }

    /// What is pending comes as often as said.
    pub fn quantify(mut self, alloc: Global, often: Often) -> Result<Reader, AllocError>
        requires { IsOrdered often }
        ensures { IfOk result (λ reader. reader ≡ quantified (times_of often) self) }
    {
        let atom = replace(&mut self.pending, one(ByteSet(0)));
        self.pending = repeat(alloc, often, atom)?;
        self.place = Place::Counted;
        Ok(self)
    }

    /// A byte where a piece may begin and nothing is pending.
    pub fn plain(self, alloc: Global, byte: u8) -> Result<Option<Reader>, AllocError>
        ensures { IfOk result (λ next. next ≡ plain_of self byte (kind_at byte)) }
    {
        let fold = self.fold;
        match kind_of(byte) {
            Kind::Literal => Ok(Some(self.behind(Bytes::Range(fold, byte, byte)))),
            Kind::Dot => Ok(Some(self.behind(Bytes::Any))),
            Kind::Backslash => Ok(Some(self.at(Place::Escaped))),
            Kind::Bracket => Ok(Some(self.class())),
            Kind::Opening => Ok(Some(self.at(Place::Opened(false)))),
            Kind::Closing => self.close(alloc),
            Kind::Bar => Ok(Some(self.bar(alloc)?)),
            Kind::Dollar => Ok(self.dollar()),
            Kind::Asterisk
            | Kind::Plus
            | Kind::Question
            | Kind::Brace
            | Kind::Caret
            | Kind::Foreign => Ok(self.refused()),
        }
    }

    /// Behind the last anchor, which stands in no group.
    fn dollar(self) -> Option<Reader>
        ensures { result ≡ ended self.outer self }
    {
        if self.outer.is_empty() {
            Some(self.at(Place::Ended))
        } else {
            self.refused()
        }
    }

    /// The first byte of the text.
    pub fn begin(self, alloc: Global, byte: u8) -> Result<Option<Reader>, AllocError>
        ensures { IfOk result (λ next. next ≡ begin_of self byte (kind_at byte)) }
    {
        match kind_of(byte) {
            Kind::Opening => Ok(Some(self.at(Place::Opened(true)))),
            Kind::Caret => Ok(Some(self.anew(alloc, Place::Ready))),
            _ => self.at(Place::Ready).plain(alloc, byte),
        }
    }

    /// A byte right behind the flag.
    pub fn begun(self, alloc: Global, byte: u8) -> Result<Option<Reader>, AllocError>
        ensures { IfOk result (λ next. next ≡ begun_of self byte (kind_at byte)) }
    {
        match kind_of(byte) {
            Kind::Caret => Ok(Some(self.anew(alloc, Place::Ready))),
            _ => self.at(Place::Ready).plain(alloc, byte),
        }
    }

    /// A byte behind an atom.
    pub fn behind_atom(self, alloc: Global, byte: u8) -> Result<Option<Reader>, AllocError>
        ensures { IfOk result (λ next. next ≡ atomic_of self byte (kind_at byte)) }
    {
        match kind_of(byte) {
            Kind::Asterisk => Ok(Some(self.quantify(alloc, Often::Star)?)),
            Kind::Plus => Ok(Some(self.quantify(alloc, Often::Plus)?)),
            Kind::Question => Ok(Some(self.quantify(alloc, Often::Optional)?)),
            Kind::Brace => Ok(Some(self.at(Place::InBraces(Braces::Least(0, 0))))),
            _ => self.add()?.plain(alloc, byte),
        }
    }

    /// A byte behind a quantifier.
    pub fn behind_quantifier(self, alloc: Global, byte: u8) -> Result<Option<Reader>, AllocError>
        ensures { IfOk result (λ next. next ≡ counted_of self byte (kind_at byte)) }
    {
        match kind_of(byte) {
            Kind::Question => Ok(Some(self.add()?)),
            _ => self.add()?.plain(alloc, byte),
        }
    }

    /// A byte behind `(`.
    pub fn opened(self, alloc: Global, first: bool, byte: u8) -> Result<Option<Reader>, AllocError>
        ensures { IfOk result (λ next. next ≡ opened_of first self byte (kind_at byte)) }
    {
        match kind_of(byte) {
            Kind::Question => Ok(Some(self.at(Place::Marked(first)))),
            _ => self.open(alloc)?.plain(alloc, byte),
        }
    }

    /// A byte behind `(?`.
    pub fn marked(self, alloc: Global, first: bool, byte: u8) -> Result<Option<Reader>, AllocError>
        ensures { IfOk result (λ next. next ≡ marked_of first self byte) }
    {
        if byte == b':' {
            Ok(Some(self.open(alloc)?))
        } else if first && byte == b'i' {
            Ok(Some(self.at(Place::Flagging)))
        } else {
            Ok(self.refused())
        }
    }

    /// A byte behind `(?i`.
    pub fn flagging(self, alloc: Global, byte: u8) -> Option<Reader>
        ensures { result ≡ flagging_of self byte }
    {
        if byte == b')' {
            Some(Reader::new(alloc, true, Place::Begun))
        } else {
            self.refused()
        }
    }

    /// A byte behind a backslash.
    pub fn escaped(self, byte: u8) -> Option<Reader>
        ensures { result ≡ escaped_of self byte }
    {
        let fold = self.fold;
        if is_punct(byte) {
            Some(self.behind(Bytes::Range(fold, byte, byte)))
        } else if is_set_letter(byte) {
            Some(self.behind(Bytes::Escape(byte)))
        } else {
            self.refused()
        }
    }
}
