//! Listed words, read again from their entries, and whether each byte leads from them to listed states.

ghost use Rattle.std.specs.Prelude.{◌≡◌, ◌<◌, ◌↔◌, [], ℕ, List, length, IsTrue, IfOk, OnOk};
ghost use Rattle.rx_term.specs.Language.{Has};
ghost use Rattle.rx_joint.specs.Lists.{list_at};
ghost use Rattle.rx_joint.specs.Joint.{AreNumbers, IsLed};
ghost use Rattle.rx_joint.specs.Claims.{AreListed, AreWords, LeadsBack, MustLeadBack};

use crate::chosen::Chosen;
use crate::lists::Lists;
use rx_auto::{Edge, follow};
use rx_term::OutOfMemory;
use std::alloc::Global;
use std::mem;

/// Whether the entries make words with pairwise different states, none of which meets the claims. Lists these states.
pub fn replay(
    alloc: Global,
    chosen: &Chosen<'_>,
    entries: &[(u64, u8)],
    states: &mut Lists,
) -> Result<bool, OutOfMemory>
    requires empty { states.old ≡ [] }
    ensures listed { IfOk result (λ yes. IsTrue yes → AreListed chosen.now.tables chosen.now.holds entries.now states.new) }
    ensures exact { IfOk result (λ yes. AreWords chosen.now.tables chosen.now.holds entries.now → IsTrue yes) }
{
    chosen.known();
    let first = chosen.empty_state(alloc)?;
    if chosen.meets(&first) {
        return Ok(false);
    }
    let mut edges = Vec::new(alloc);
    chosen.edges(&first, &mut edges)?;
    states.add(first)?;
    let mut next = Vec::new(alloc);
    let mut held = 0;
    for entry in entries {
        let (parent, byte) = *entry;
        if parent >= states.len() as u64 || byte < 32 || byte > 126 {
            return Ok(false);
        }
        if parent != held {
            chosen.edges(states.at(parent as usize), &mut edges)?;
            held = parent;
        }
        follow(&edges, byte, &mut next)?;
        if states.has(&next) || chosen.meets(&next) {
            return Ok(false);
        }
        states.add(Vec::from_slice(alloc, &next)?)?;
    }
    Ok(true)
}

/// Whether a state is listed. `last` is a listed one, which is compared first, since one state mostly comes several
/// times in a row.
pub fn is_listed(states: &Lists, last: &[u64], next: &[u64]) -> bool
    requires { Has states.now last.now }
    ensures { IsTrue result ↔ Has states.now next.now }
{
    next == last || states.has(next)
}

/// Whether each of the bytes leads from a listed state to a listed one.
fn leads_back(
    alloc: Global,
    chosen: &Chosen<'_>,
    states: &Lists,
    place: usize,
    edges: &mut Vec<Edge>,
) -> Result<bool, OutOfMemory>
    requires place { place < length states.now }
    requires numbers { AreNumbers chosen.now.tables (list_at states.now place) }
    ensures listed { IfOk result (λ yes. IsTrue yes → LeadsBack chosen.now.tables chosen.now.bytes states.now place) }
    ensures exact { IfOk result (λ yes. MustLeadBack chosen.now.tables chosen.now.bytes states.now place → IsTrue yes) }
{
    chosen.edges(states.at(place), edges)?;
    let mut last = Vec::from_slice(alloc, states.at(place))?;
    let mut next = Vec::new(alloc);
    for byte in chosen.bytes() {
        follow(edges, *byte, &mut next)?;
        if !is_listed(states, &last, &next) {
            return Ok(false);
        }
        mem::swap(&mut last, &mut next);
    }
    Ok(true)
}

/// Whether each of the bytes leads from each listed state to a listed one.
pub fn all_lead_back(
    alloc: Global,
    chosen: &Chosen<'_>,
    states: &Lists,
) -> Result<bool, OutOfMemory>
    requires numbers { (k : ℕ) → k < length states.now → AreNumbers chosen.now.tables (list_at states.now k) }
    ensures listed { IfOk result (λ yes. IsTrue yes → (k : ℕ) → k < length states.now → LeadsBack chosen.now.tables chosen.now.bytes states.now k) }
    ensures exact { IfOk result (λ yes. ((k : ℕ) → k < length states.now → MustLeadBack chosen.now.tables chosen.now.bytes states.now k) → IsTrue yes) }
{
    let mut edges = Vec::new(alloc);
    for place in 0..states.len() {
        if !leads_back(alloc, chosen, states, place, &mut edges)? {
            return Ok(false);
        }
    }
    Ok(true)
}
