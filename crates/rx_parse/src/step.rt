//! The reader from byte to byte, and at the end.

ghost use Rattle.std.specs.Prelude.{◌≡◌, IfOk};
ghost use Rattle.rx_parse.specs.Answer.{frame_made, step_of, whole_at};

use crate::made::Made;
use crate::place::Place;
use crate::reader::Reader;
use std::alloc::{AllocError, Global};

impl Reader {
    /// The reader behind one more byte, or none where no pattern goes on so.
    pub fn step(self, alloc: Global, byte: u8) -> Result<Option<Reader>, AllocError>
        ensures { IfOk result (λ next. next ≡ step_of self.place self byte) }
    {
        match self.place {
            Place::Begin => self.begin(alloc, byte),
            Place::Begun => self.begun(alloc, byte),
            Place::Ready => self.plain(alloc, byte),
            Place::Atomic => self.behind_atom(alloc, byte),
            Place::Counted => self.behind_quantifier(alloc, byte),
            Place::Ended => Ok(self.refused()),
            Place::Escaped => Ok(self.escaped(byte)),
            Place::Opened(first) => self.opened(alloc, first, byte),
            Place::Marked(first) => self.marked(alloc, first, byte),
            Place::Flagging => Ok(self.flagging(alloc, byte)),
            Place::InClass(class) => Ok(self.in_class(class, byte)),
            Place::InBraces(braces) => self.in_braces(alloc, braces, byte),
        }
    }

    /// What the choice spells, at its end.
    fn whole(self, alloc: Global) -> Result<Made, AllocError>
        ensures { IfOk result (λ made. made ≡ frame_made self.top) }
    {
        self.top.finish(alloc)
    }

    /// Nothing, as the text isn't at a pattern's end.
    fn unfinished(self) -> Option<Made>
        ensures { result ≡ None }
    {
        None
    }

    /// What the whole text spells, or none where it is no pattern.
    pub fn finish(self, alloc: Global) -> Result<Option<Made>, AllocError>
        ensures { IfOk result (λ made. made ≡ whole_at self.place self.outer self) }
    {
        if !self.outer.is_empty() {
            return Ok(self.unfinished());
        }
        match self.place {
            Place::Begin | Place::Begun | Place::Ready | Place::Ended => {
                let made = self.whole(alloc)?;
                Ok(Some(made))
            }
            Place::Atomic | Place::Counted => {
                let made = self.add()?.whole(alloc)?;
                Ok(Some(made))
            }
            _ => Ok(self.unfinished()),
        }
    }
}
