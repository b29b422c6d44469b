//! Best-first search: it goes on from the listed word that seems nearest to a text. Only where that finds none, all
//! words are listed.

ghost use Rattle.std.specs.Prelude.{◌≡◌, ◌<◌, [], ℕ, length, IfOk, IfSome, OnOk};
ghost use Rattle.rx_term.specs.Language.{Has};
ghost use Rattle.rx_term.specs.Closing.{IsPrintable};
ghost use Rattle.rx_auto.specs.Edges.{AddsEdges};
ghost use Rattle.rx_joint.specs.Lists.{list_at};
ghost use Rattle.rx_joint.specs.Joint.{IsLed};
ghost use Rattle.rx_joint.specs.Claims.{AreListed};
ghost use Rattle.field_seek.specs.Sought.{Grows, IsRoomy, IsStep, IsSought};

use crate::listing::list_all;
use crate::seen::Seen;
use crate::spelling::spelled;
use crate::step::{Step, list_next};
use rx_auto::{Edge, Words, follow};
use rx_joint::{Chosen, Lists};
use rx_term::{ByteSet, OutOfMemory};
use sqlite_items::Items;
use std::alloc::Global;
use std::collections::BinaryHeap;

/// Listed words to go on from, each with its distance from a text. Both numbers are subtracted from the greatest one,
/// so that the heap's greatest pair is the nearest word, and among equally near ones the first.
type Queue = BinaryHeap<(u32, u32)>;

/// Adds a listed word to go on from. A word whose number doesn't fit is left to the listing of all words.
fn enqueue(queue: &mut Queue, far: u32, word: usize) -> Result<(), OutOfMemory> {
    if let Ok(number) = u32::try_from(word) {
        queue.push((u32::MAX - far, u32::MAX - number))?;
    }
    Ok(())
}

/// Takes out the word that seems nearest to a text.
fn nearest(queue: &mut Queue, count: usize) -> Option<usize>
    ensures { IfSome result (λ word. word < count) }
{
    let (_, number) = queue.pop()?;
    let word = (u32::MAX - number) as usize;
    if word < count { Some(word) } else { None }
}

/// Lists the state that a byte leads to from a listed word, unless its score tells that no text begins so.
fn try_byte(
    alloc: Global,
    chosen: &Chosen<'_>,
    cap: Option<u32>,
    word: usize,
    byte: u8,
    from: &[u64],
    edges: &[Edge],
    states: &mut Lists,
    entries: &mut Items<(u64, u8)>,
    queue: &mut Queue,
) -> Result<Step, OutOfMemory>
    requires listed { AreListed chosen.now.tables chosen.now.holds entries.old states.old }
    requires word { word < length states.old }
    requires byte { IsPrintable byte }
    requires from { Has states.old from.now }
    requires edges { AddsEdges [] edges.now (λ b x. IsLed chosen.now.tables (list_at states.old word) b x) }
    requires roomy { IsRoomy cap states.old }
    ensures grows { OnOk result (Grows entries.old states.old entries.new states.new) }
    ensures listed { OnOk result (AreListed chosen.now.tables chosen.now.holds entries.new states.new) }
    ensures step { IfOk result (λ step. IsStep chosen.now.tables chosen.now.holds cap word entries.new states.new step) }
{
    let mut next = Vec::new(alloc);
    follow(edges, byte, &mut next)?;
    let Some(far) = chosen.score(&next) else {
        return Ok(Step::Done);
    };
    let count = states.len();
    let step = list_next(alloc, chosen, cap, word, byte, from, &next, states, entries)?;
    if states.len() > count {
        enqueue(queue, far, count)?;
    }
    Ok(step)
}

/// Tries each byte after one listed word that may lead to a text.
fn expand(
    alloc: Global,
    chosen: &Chosen<'_>,
    cap: Option<u32>,
    word: usize,
    states: &mut Lists,
    entries: &mut Items<(u64, u8)>,
    queue: &mut Queue,
) -> Result<Step, OutOfMemory>
    requires listed { AreListed chosen.now.tables chosen.now.holds entries.old states.old }
    requires word { word < length states.old }
    requires roomy { IsRoomy cap states.old }
    ensures grows { OnOk result (Grows entries.old states.old entries.new states.new) }
    ensures listed { OnOk result (AreListed chosen.now.tables chosen.now.holds entries.new states.new) }
    ensures step { IfOk result (λ step. IsStep chosen.now.tables chosen.now.holds cap word entries.new states.new step) }
{
    chosen.known();
    let mut edges = Vec::new(alloc);
    chosen.edges(states.at(word), &mut edges)?;
    let from = Vec::from_slice(alloc, states.at(word))?;
    let readable = chosen.readable(&edges);
    for byte in chosen.bytes() {
        if !readable.has(*byte) {
            continue;
        }
        match try_byte(
            alloc, chosen, cap, word, *byte, &from, &edges, states, entries, queue,
        )? {
            Step::Met(byte) => return Ok(Step::Met(byte)),
            Step::Full => return Ok(Step::Full),
            Step::Done => {}
        }
    }
    Ok(Step::Done)
}

/// Searches for a text, each time from the word that seems nearest to one. Where no word is left to go on from, lists
/// all words. What was listed so far is kept then.
pub fn seek_best_first(
    alloc: Global,
    chosen: &Chosen<'_>,
    cap: Option<u32>,
    mut states: Lists,
    mut entries: Items<(u64, u8)>,
) -> Result<Seen, OutOfMemory>
    requires listed { AreListed chosen.now.tables chosen.now.holds entries states }
    requires roomy { IsRoomy cap states }
    ensures { IfOk result (λ seen. IsSought chosen.now.tables chosen.now.holds chosen.now.bytes cap seen) }
{
    let mut queue = BinaryHeap::new(alloc);
    enqueue(&mut queue, 0, 0)?;
    for _ in 0..u64::MAX {
        let Some(word) = nearest(&mut queue, states.len()) else {
            break;
        };
        match expand(
            alloc,
            chosen,
            cap,
            word,
            &mut states,
            &mut entries,
            &mut queue,
        )? {
            Step::Met(byte) => {
                return Ok(Seen::Found(spelled(alloc, entries.as_slice(), word, byte)?));
            }
            Step::Full => return Ok(Seen::Capped(Words { list: entries })),
            Step::Done => {}
        }
    }
    list_all(alloc, chosen, cap, states, entries)
}
