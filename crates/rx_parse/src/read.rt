//! Reads a text, byte by byte.

ghost use Rattle.std.specs.Prelude.{◌≡◌, ◌≤◌, length};
ghost use Rattle.rx_parse.specs.Results.{IsTold};
ghost use Rattle.rx_parse.specs.Answer.{answer as answer_on, end_of, made_answer, whole_at, Tells};

use crate::fault::{RxFault, fault_at};
use crate::made::{LIMIT, Made};
use crate::place::Place;
use crate::reader::Reader;
use rx_term::Term;
use std::alloc::Global;

/// What the whole text spells, if it isn't too large.
fn answer(whole: Made) -> Result<Term, RxFault>
    ensures { result ≡ made_answer whole }
{
    let Made { term, positions } = whole;
    if positions > LIMIT {
        return Err(RxFault::TooLarge { positions });
    }
    term.ok_or(RxFault::TooLarge { positions })
}

/// What the reader tells at the end of a text of `at` bytes.
fn end(alloc: Global, reader: Reader, at: u32) -> Result<Term, RxFault>
    ensures { Tells result (end_of (whole_at reader.place reader.outer reader) at) }
{
    let Some(whole) = reader.finish(alloc)? else {
        return Err(RxFault::Syntax { at });
    };
    answer(whole)
}

/// Reads the text of a pattern, of at most 512 bytes: its term by the grammar, of at most 4,000 positions, or why it has
/// none. One pass, with no recursion that a pattern makes deep. A counted piece is copied only where its copies have no
/// more than 4,000 positions.
pub fn parse(alloc: Global, text: &[u8]) -> Result<Term, RxFault>
    requires { length text.now ≤ 512 }
    ensures answer { Tells result (answer_on text.now) }
    ensures right { IsTold text.now result }
{
    let mut reader = Reader::new(alloc, false, Place::Begin);
    for (at, byte) in text.iter().enumerate() {
        let place = reader.place;
        let Some(next) = reader.step(alloc, *byte)? else {
            return Err(fault_at(place, *byte, at as u32));
        };
        reader = next;
    }
    end(alloc, reader, text.len() as u32)
}
