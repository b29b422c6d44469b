//! The listing of all words, until each byte leads from each of them to a listed state.

ghost use Rattle.std.specs.Prelude.{◌≡◌, ◌<◌, ℕ, length, IfOk, OnOk};
ghost use Rattle.rx_joint.specs.Claims.{AreListed, LeadsBack};
ghost use Rattle.field_seek.specs.Sought.{Grows, IsRoomy, IsStep, IfDone, IsSought};

use crate::seen::Seen;
use crate::spelling::spelled;
use crate::step::{Step, list_next};
use rx_auto::{Edge, Words, follow};
use rx_joint::{Chosen, Lists};
use rx_term::OutOfMemory;
use sqlite_items::Items;
use std::alloc::Global;
use std::mem;

/// Tries each byte after one listed word.
fn explore(
    alloc: Global,
    chosen: &Chosen<'_>,
    cap: Option<u32>,
    word: usize,
    states: &mut Lists,
    entries: &mut Items<(u64, u8)>,
    edges: &mut Vec<Edge>,
) -> Result<Step, OutOfMemory>
    requires listed { AreListed chosen.now.tables chosen.now.holds entries.old states.old }
    requires word { word < length states.old }
    requires roomy { IsRoomy cap states.old }
    ensures grows { OnOk result (Grows entries.old states.old entries.new states.new) }
    ensures listed { OnOk result (AreListed chosen.now.tables chosen.now.holds entries.new states.new) }
    ensures step { IfOk result (λ step. IsStep chosen.now.tables chosen.now.holds cap word entries.new states.new step) }
    ensures back { IfOk result (λ step. IfDone step (LeadsBack chosen.now.tables chosen.now.bytes states.new word)) }
{
    chosen.known();
    chosen.edges(states.at(word), edges)?;
    let mut last = Vec::from_slice(alloc, states.at(word))?;
    let mut next = Vec::new(alloc);
    for byte in chosen.bytes() {
        follow(edges, *byte, &mut next)?;
        match list_next(
            alloc, chosen, cap, word, *byte, &last, &next, states, entries,
        )? {
            Step::Met(byte) => return Ok(Step::Met(byte)),
            Step::Full => return Ok(Step::Full),
            Step::Done => {}
        }
        mem::swap(&mut last, &mut next);
    }
    Ok(Step::Done)
}

/// Lists words until one meets the literals, or there are more than the cap allows, or each byte leads from each word
/// to a listed state.
pub fn list_all(
    alloc: Global,
    chosen: &Chosen<'_>,
    cap: Option<u32>,
    mut states: Lists,
    mut entries: Items<(u64, u8)>,
) -> Result<Seen, OutOfMemory>
    requires listed { AreListed chosen.now.tables chosen.now.holds entries states }
    requires roomy { IsRoomy cap states }
    ensures { IfOk result (λ seen. IsSought chosen.now.tables chosen.now.holds chosen.now.bytes cap seen) }
{
    chosen.known();
    let mut edges = Vec::new(alloc);
    let mut word = 0;
    while word < states.len() {
        match explore(
            alloc,
            chosen,
            cap,
            word,
            &mut states,
            &mut entries,
            &mut edges,
        )? {
            Step::Met(byte) => {
                return Ok(Seen::Found(spelled(alloc, entries.as_slice(), word, byte)?));
            }
            Step::Full => return Ok(Seen::Capped(Words { list: entries })),
            Step::Done => {}
        }
        word += 1;
    }
    Ok(Seen::Empty(Words { list: entries }))
}
