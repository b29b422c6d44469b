//! One step of a search: the state that a byte leads to from a listed word is listed too.

ghost use Rattle.std.specs.Prelude.{◌≡◌, ◌<◌, ◌≤◌, ℕ, [], length, Some, IsTrue, IfOk, OnOk};
ghost use Rattle.rx_term.specs.Language.{Has};
ghost use Rattle.rx_term.specs.Closing.{IsPrintable};
ghost use Rattle.rx_auto.specs.Live.{AddsNumbers};
ghost use Rattle.rx_joint.specs.Lists.{list_at};
ghost use Rattle.rx_joint.specs.Joint.{IsLed};
ghost use Rattle.rx_joint.specs.Claims.{AreListed};
ghost use Rattle.field_seek.specs.Sought.{Grows, IsRoomy, IsStep, IfDone};

use rx_joint::{Chosen, Lists, is_listed};
use rx_term::OutOfMemory;
use sqlite_items::Items;
use std::alloc::Global;

/// What came of a step, or of all steps from one word.
#[derive(Clone, Copy)]
pub enum Step {
    /// The word and this byte make a text that meets the literals.
    Met(u8),
    /// There is one word more than the cap allows.
    Full,
    /// The states that were reached are listed, and the cap allows them.
    Done,
}

/// Whether there are more words than the cap allows.
pub fn is_over(cap: Option<u32>, count: usize) -> bool
    ensures over { IsTrue result → (c : ℕ) × (cap ≡ Some c) × (c < count) }
    ensures under { (IsTrue result → ⊥) → (c : ℕ) → cap ≡ Some c → count ≤ c }
{
    match cap {
        Some(limit) => count > limit as usize,
        None => false,
    }
}

/// Lists `next`, the state that a byte leads to from a listed word, unless it is listed already. `last` is a listed
/// state, which `next` is compared with before it is looked up.
pub fn list_next(
    alloc: Global,
    chosen: &Chosen<'_>,
    cap: Option<u32>,
    word: usize,
    byte: u8,
    last: &[u64],
    next: &[u64],
    states: &mut Lists,
    entries: &mut Items<(u64, u8)>,
) -> Result<Step, OutOfMemory>
    requires listed { AreListed chosen.now.tables chosen.now.holds entries.old states.old }
    requires word { word < length states.old }
    requires byte { IsPrintable byte }
    requires next { AddsNumbers [] next.now (IsLed chosen.now.tables (list_at states.old word) byte) }
    requires last { Has states.old last.now }
    requires roomy { IsRoomy cap states.old }
    ensures grows { OnOk result (Grows entries.old states.old entries.new states.new) }
    ensures listed { OnOk result (AreListed chosen.now.tables chosen.now.holds entries.new states.new) }
    ensures step { IfOk result (λ step. IsStep chosen.now.tables chosen.now.holds cap word entries.new states.new step) }
    ensures there { IfOk result (λ step. IfDone step (Has states.new next.now)) }
{
    chosen.known();
    if is_listed(states, last, next) {
        return Ok(Step::Done);
    }
    if chosen.meets(next) {
        return Ok(Step::Met(byte));
    }
    states.add(Vec::from_slice(alloc, next)?)?;
    entries.push((word as u64, byte))?;
    if is_over(cap, states.len()) {
        return Ok(Step::Full);
    }
    Ok(Step::Done)
}
