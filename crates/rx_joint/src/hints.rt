//! Hints on how near a place is to a text. They decide where a search looks first, and nothing else.

ghost use Rattle.std.specs.Prelude.{◌≡◌, length, IfOk};

use rx_auto::{Edge, Table};
use rx_term::OutOfMemory;
use std::alloc::Global;

/// What is known of a place.
#[derive(Clone, Copy)]
pub struct Hint {
    /// About how many bytes lead from the place to the end of a text, the greatest number where none is known.
    pub distance: u32,
    /// Whether the place is seen to have each text of the alphabet.
    pub all: bool,
}

/// The bytes 32 to 126.
const ALPHABET: u128 = 0x7FFF_FFFF_FFFF_FFFF_FFFF_FFFF_0000_0000;

/// The hint on a place, by its edges and the hints on later places.
fn hint_of(edges: &[Edge], ends: bool, place: u32, hints: &[Hint]) -> Hint {
    let mut hint = Hint {
        distance: if ends { 0 } else { u32::MAX },
        all: false,
    };
    for edge in edges {
        if ends && edge.to == place as u64 && edge.set.0 & ALPHABET == ALPHABET {
            hint.all = true;
        }
        if let Some(next) = hints.get(edge.to as usize) {
            hint.distance = hint.distance.min(next.distance.saturating_add(1));
        }
    }
    hint
}

/// A hint on each place of a table, from the last one to the first.
pub fn hints_of(alloc: Global, table: &Table) -> Result<Vec<Hint>, OutOfMemory>
    ensures { IfOk result (λ hints. length hints.items ≡ length table.now.terms) }
{
    let count = table.places();
    let none = Hint {
        distance: u32::MAX,
        all: false,
    };
    let mut hints = vec![in alloc; none; count as usize]?;
    let mut edges = Vec::new(alloc);
    for before in 0..count {
        let place = count - 1 - before;
        edges.clear();
        table.edges(place, 0, &mut edges)?;
        hints[place as usize] = hint_of(&edges, table.ends_at(place), place, &hints);
    }
    Ok(hints)
}
