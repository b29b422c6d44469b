//! The reader in a class.

ghost use Rattle.std.specs.Prelude.{◌≡◌};
ghost use Rattle.rx_parse.specs.Answer.{item_of, with_bytes, closed_class, item_behind, dashed_of, class_of};

use crate::bytes::{Bytes, is_any, is_punct, is_set_letter, set_of};
use crate::made::one;
use crate::place::{Class, Place};
use crate::reader::Reader;

impl Reader {
    /// The bytes belong to the class.
    fn with(self, bytes: Bytes, class: Class) -> Reader
        ensures { result ≡ with_bytes self bytes class }
    {
        Reader {
            set: set_of(Bytes::Both(self.set, set_of(bytes))),
            place: Place::InClass(class),
            ..self
        }
    }

    /// Behind the class.
    fn close_class(self) -> Reader
        ensures { result ≡ closed_class self }
    {
        let set = if self.negated {
            set_of(Bytes::Without(self.set))
        } else {
            self.set
        };
        Reader {
            pending: one(set),
            place: Place::Atomic,
            ..self
        }
    }

    /// The first byte of an item; the byte before may be a bare bracket.
    fn item(self, bare: bool, byte: u8) -> Option<Reader>
        ensures { result ≡ item_of self bare byte }
    {
        if byte == b'\\' {
            Some(self.at(Place::InClass(Class::Slashed)))
        } else if is_any(byte) && !(bare && byte == b':') {
            Some(self.at(Place::InClass(Class::Single(byte, byte == b'['))))
        } else {
            self.refused()
        }
    }

    /// A byte right behind `[`.
    fn fresh(self, byte: u8) -> Option<Reader>
        ensures { result ≡ class_of Class.Fresh self byte }
    {
        if byte == b'^' {
            Some(Reader {
                negated: true,
                place: Place::InClass(Class::Negated),
                ..self
            })
        } else if byte == b'-' {
            Some(self.with(Bytes::Range(false, byte, byte), Class::Item(false)))
        } else {
            self.item(false, byte)
        }
    }

    /// A byte right behind `[^`.
    fn behind_caret(self, byte: u8) -> Option<Reader>
        ensures { result ≡ class_of Class.Negated self byte }
    {
        if byte == b'-' {
            Some(self.with(Bytes::Range(false, byte, byte), Class::Item(false)))
        } else {
            self.item(false, byte)
        }
    }

    /// A byte behind a single.
    fn behind_single(self, single: u8, bare: bool, byte: u8) -> Option<Reader>
        ensures { result ≡ class_of (Class.Single single bare) self byte }
    {
        let own = Bytes::Range(self.fold, single, single);
        if byte == b'-' {
            Some(self.at(Place::InClass(Class::Ranged(single))))
        } else {
            self.with(own, Class::Item(bare)).behind_item(bare, byte)
        }
    }

    /// A byte behind an item that begins no range.
    fn behind_item(self, bare: bool, byte: u8) -> Option<Reader>
        ensures { result ≡ item_behind self bare byte }
    {
        if byte == b']' {
            Some(self.close_class())
        } else if byte == b'-' {
            Some(self.at(Place::InClass(Class::Dashed)))
        } else {
            self.item(bare, byte)
        }
    }

    /// A byte behind a single and a dash.
    fn ranged(self, single: u8, byte: u8) -> Option<Reader>
        ensures { result ≡ class_of (Class.Ranged single) self byte }
    {
        let fold = self.fold;
        if byte == b']' {
            let own = Bytes::Range(fold, single, single);
            self.with(own, Class::Dashed).dashed(byte)
        } else if byte == b'\\' {
            Some(self.at(Place::InClass(Class::RangeSlashed(single))))
        } else if is_any(byte) && byte != b'-' && single <= byte {
            Some(self.with(Bytes::Range(fold, single, byte), Class::Item(byte == b'[')))
        } else {
            self.refused()
        }
    }

    /// A byte behind a dash that has to be the last item.
    fn dashed(self, byte: u8) -> Option<Reader>
        ensures { result ≡ dashed_of self byte }
    {
        if byte == b']' {
            let dash = Bytes::Range(false, b'-', b'-');
            Some(self.with(dash, Class::Dashed).close_class())
        } else {
            self.refused()
        }
    }

    /// A byte behind a backslash.
    fn slashed(self, byte: u8) -> Option<Reader>
        ensures { result ≡ class_of Class.Slashed self byte }
    {
        if is_punct(byte) {
            Some(self.at(Place::InClass(Class::Single(byte, false))))
        } else if is_set_letter(byte) {
            Some(self.with(Bytes::Escape(byte), Class::Item(false)))
        } else {
            self.refused()
        }
    }

    /// A byte behind a single, a dash and a backslash.
    fn range_slashed(self, single: u8, byte: u8) -> Option<Reader>
        ensures { result ≡ class_of (Class.RangeSlashed single) self byte }
    {
        let fold = self.fold;
        if is_punct(byte) && single <= byte {
            Some(self.with(Bytes::Range(fold, single, byte), Class::Item(false)))
        } else {
            self.refused()
        }
    }

    /// A byte in a class.
    pub fn in_class(self, class: Class, byte: u8) -> Option<Reader>
        ensures { result ≡ class_of class self byte }
    {
        match class {
            Class::Fresh => self.fresh(byte),
            Class::Negated => self.behind_caret(byte),
            Class::Single(single, bare) => self.behind_single(single, bare, byte),
            Class::Item(bare) => self.behind_item(bare, byte),
            Class::Ranged(single) => self.ranged(single, byte),
            Class::Dashed => self.dashed(byte),
            Class::Slashed => self.slashed(byte),
            Class::RangeSlashed(single) => self.range_slashed(single, byte),
        }
    }
}
