//! The positions that several places lead to, each once.

ghost use Rattle.std.specs.Prelude.{◌≡◌, ◌<◌, ◌≤◌, ◌+◌, ◌^◌, ◌↔◌, ◌⊎◌, ℕ, true, length, slice_index, OnOk};
ghost use Rattle.rx_term.specs.Term.{has_byte};
ghost use Rattle.rx_term.specs.Language.{Has};
ghost use Rattle.rx_auto.specs.Distinct.{Extends};
ghost use Rattle.rx_auto.specs.Parts.{spot_at};
ghost use Rattle.rx_auto.specs.Ways.{list_at};
ghost use Rattle.rx_auto.specs.Marks.{Adds, AreWithin, mark_at, rep_at};
ghost use Rattle.rx_auto.specs.Edges.{AddsEdges};
ghost use Rattle.rx_auto.specs.Reach.{IsReached, EntersFrom};

use crate::edges::Edge;
use crate::marks::mark_both;
use crate::members::Members;
use crate::parts::Spot;
use crate::ways::{Way, Ways};
use rx_term::OutOfMemory;

/// Marks the nodes of what may come after the places.
pub fn enter_from(spots: &[Spot], places: &[u32], nodes: &mut Members)
    requires places { (k : ℕ) → k < length places.now → slice_index places.now k < length spots.now }
    requires nodes { (p : ℕ) → p < length spots.now → (spot_at spots.now p).next < length nodes.old.marks }
    ensures long { length nodes.new.marks ≡ length nodes.old.marks }
    ensures marks { Adds nodes.old.marks nodes.new.marks (EntersFrom spots.now places.now) }
{
    for place in places {
        nodes.put(spots[*place as usize].next);
    }
}

/// Hands the mark of a node on to the nodes that it is made of, or to its position.
fn pass_on(ways: &Ways, nodes: &mut Members, row: &mut Members, at: usize)
    requires marked { mark_at nodes.old.marks at ≡ true }
    requires within { AreWithin ways.now nodes.old.marks (length row.old.marks) }
    requires nodes { length ways.now ≤ length nodes.old.marks }
    ensures row { length row.new.marks ≡ length row.old.marks }
    ensures nodes { length nodes.new.marks ≡ length nodes.old.marks }
    ensures list { Extends nodes.old.list nodes.new.list }
    ensures within { AreWithin ways.now nodes.new.marks (length row.new.marks) }
    ensures kept { (n q : ℕ) → IsReached ways.now row.old.marks nodes.old.marks n q → IsReached ways.now row.new.marks nodes.new.marks n q }
    ensures only { (q : ℕ) → IsReached ways.now row.new.marks nodes.new.marks (length ways.now) q
        → IsReached ways.now row.old.marks nodes.old.marks (length ways.now) q }
    ensures done { (q : ℕ) → Has (list_at ways.now at) q → IsReached ways.now row.new.marks nodes.new.marks at q }
{
    match ways.at(at) {
        Way::Nowhere => {}
        Way::At(place) => row.put(place as usize),
        Way::Both(left, right) => mark_both(nodes, left, right),
    }
}

/// Hands on the marks of all nodes, and of those that are marked on the way.
pub fn reach(ways: &Ways, nodes: &mut Members, row: &mut Members)
    requires within { AreWithin ways.now nodes.old.marks (length row.old.marks) }
    requires nodes { length ways.now ≤ length nodes.old.marks }
    ensures row { length row.new.marks ≡ length row.old.marks }
    ensures nodes { length nodes.new.marks ≡ length nodes.old.marks }
    ensures reached { (q : ℕ) → IsReached ways.now row.old.marks nodes.old.marks (length ways.now) q ↔ (mark_at row.new.marks q ≡ true) }
{
    let mut k = 0;
    while k < nodes.count() {
        let at = nodes.at(k);
        pass_on(ways, nodes, row, at);
        k += 1;
    }
}

/// Adds an edge for each marked position, to its own place, counted from the base.
pub fn put_marked(
    spots: &[Spot],
    reps: &[u32],
    row: &Members,
    base: u64,
    to: &mut Vec<Edge>,
) -> Result<(), OutOfMemory>
    requires row { length spots.now ≤ length row.now.marks }
    requires reps { length reps.now ≡ length spots.now }
    requires room { (p : ℕ) → p < length spots.now → base + slice_index reps.now p < 2 ^ 64 }
    ensures { OnOk result (AddsEdges to.old.items to.new.items (λ b x. (q : ℕ) × (q < length spots.now) × (mark_at row.now.marks q ≡ true)
        × (has_byte (spot_at spots.now q).set b ≡ true) × (x ≡ base + rep_at reps.now q))) }
{
    for q in 0..spots.len() {
        if row.has(q) {
            to.push(Edge {
                set: spots[q].set,
                to: base + reps[q] as u64,
            })?;
        }
    }
    Ok(())
}
