//! What a place reads and where that leads, as edges.

ghost use Rattle.std.specs.Prelude.{◌≡◌, ◌<◌, ◌+◌, ◌^◌, [], ℕ, length, slice_index, OnOk};
ghost use Rattle.rx_auto.specs.Marks.{Marked};
ghost use Rattle.rx_auto.specs.Live.{IsAscending, AddsNumbers};
ghost use Rattle.rx_auto.specs.Edges.{Reads, AddsEdges};

use crate::live::put;
use crate::parts::Spot;
use rx_term::{ByteSet, OutOfMemory};

/// The bytes of the set lead to the place of the number.
#[derive(Clone, Copy)]
pub struct Edge {
    pub set: ByteSet,
    pub to: u64,
}

/// Adds an edge for each of the positions, to its own place, counted from the base.
pub fn put_edges(
    spots: &[Spot],
    reps: &[u32],
    ps: &[u32],
    base: u64,
    to: &mut Vec<Edge>,
) -> Result<(), OutOfMemory>
    requires spots { (k : ℕ) → k < length ps.now → slice_index ps.now k < length spots.now }
    requires reps { length reps.now ≡ length spots.now }
    requires room { (p : ℕ) → p < length spots.now → base + slice_index reps.now p < 2 ^ 64 }
    ensures { OnOk result (AddsEdges to.old.items to.new.items (λ b x. (p : ℕ) × (x ≡ base + p) × Marked spots.now reps.now b ps.now p)) }
{
    for q in ps {
        to.push(Edge {
            set: spots[*q as usize].set,
            to: base + reps[*q as usize] as u64,
        })?;
    }
    Ok(())
}

/// The numbers that a byte leads to by the edges, ascending, in place of what the list held.
pub fn follow(edges: &[Edge], byte: u8, to: &mut Vec<u64>) -> Result<(), OutOfMemory>
    ensures { OnOk result (AddsNumbers [] to.new.items (Reads edges.now byte)) }
{
    to.clear();
    for edge in edges {
        if edge.set.has(byte) {
            put(to, edge.to)?;
        }
    }
    Ok(())
}
