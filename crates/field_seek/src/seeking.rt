//! The calls that search.

ghost use Rattle.std.specs.Prelude.{IfOk};
ghost use Rattle.rx_joint.specs.Claims.{AreChosen, chosen, claims_of};
ghost use Rattle.field_seek.specs.Seen.{IsSeen};

use crate::best_first::seek_best_first;
use crate::seen::Seen;
use crate::step::is_over;
use rx_auto::Words;
use rx_joint::{Chosen, Joint, Lists, Literal, joint_of};
use rx_term::{OutOfMemory, Term};
use sqlite_items::Items;
use std::alloc::Global;

/// Seeks a text that is in the valid term of `joint` and meets the choice: numbers of its terms, and whether the text
/// has to be in each. With a cap, at most so many words are explored, the empty one counted. Each number must be
/// below `joint`'s count. The cost grows with the number of words that are listed, which without a cap is bounded
/// only by the number of states that the chosen terms have together.
pub fn seek_among(
    alloc: Global,
    joint: &Joint,
    choice: &[(u32, bool)],
    cap: Option<u32>,
) -> Result<Seen, OutOfMemory>
    requires { AreChosen joint.now.terms choice.now }
    ensures { IfOk result (λ seen. IsSeen joint.now.valid (chosen joint.now.terms choice.now) cap seen) }
{
    let chosen = joint.choose(alloc, choice)?;
    let mut states = Lists::new(alloc);
    let entries = Items::new(alloc);
    let first = chosen.empty_state(alloc)?;
    if chosen.meets(&first) {
        return Ok(Seen::Found(Vec::new(alloc)));
    }
    states.add(first)?;
    if is_over(cap, states.len()) {
        return Ok(Seen::Capped(Words { list: entries }));
    }
    seek_best_first(alloc, &chosen, cap, states, entries)
}

/// Seeks a text that is in `valid` and meets the literals. With a cap, at most so many words are explored, the empty
/// one counted. Tables of all terms are built anew; `seek_among` searches over tables that are kept.
pub fn seek(
    alloc: Global,
    literals: &[Literal],
    valid: &Term,
    cap: Option<u32>,
) -> Result<Seen, OutOfMemory>
    ensures { IfOk result (λ seen. IsSeen valid.now (claims_of literals.now) cap seen) }
{
    let (joint, choice) = joint_of(alloc, valid, literals)?;
    seek_among(alloc, &joint, &choice, cap)
}
