//! Ascending lists of live places, stepped over several tables at once.

ghost use Rattle.std.specs.Prelude.{◌≡◌, ◌<◌, ◌≤◌, ◌-◌, ◌↔◌, ◌/◌, ◌∷◌, [], take, drop, ℕ, Bool, true, length, slice_index_or, IsTrue, OnOk, false};
ghost use Rattle.rx_term.specs.Language.{Has};
ghost use Rattle.rx_term.specs.Closing.{Is};
ghost use Rattle.rx_auto.specs.Live.{AddsNumbers};
ghost use Rattle.rx_auto.specs.Edges.{AddsEdges};
ghost use Rattle.rx_joint.specs.Joint.{AreTables, AreNumbers, IsLed, Ends, number_of, table_of, terms_in, picked};
ghost use Rattle.rx_joint.specs.Claims.{AreWanted, hold_at};

use rx_auto::{Edge, Scratch, Table, put};
use rx_term::OutOfMemory;

/// How many places a table has at most: the number of a live place is its table's number times this, and the place.
pub const PLACES: u64 = 4294967296;

/// The first place of each of so many tables.
pub fn begin(count: u32, to: &mut Vec<u64>) -> Result<(), OutOfMemory>
    requires { to.old.items ≡ [] }
    ensures { OnOk result (AddsNumbers [] to.new.items (λ x. (i : ℕ) × (i < count) × (x ≡ number_of i 0))) }
{
    for i in 0..count {
        put(to, i as u64 * PLACES)?;
    }
    Ok(())
}

/// Adds the edges of the places, one place after another.
fn gather_few(
    tables: &[Table],
    numbers: &[u32],
    from: &[u64],
    to: &mut Vec<Edge>,
) -> Result<(), OutOfMemory>
    requires tables { AreTables (picked (terms_in tables.now) numbers.now) }
    requires numbers { (i : ℕ) → Has numbers.now i → i < length tables.now }
    requires from { AreNumbers (picked (terms_in tables.now) numbers.now) from.now }
    ensures { OnOk result (AddsEdges to.old.items to.new.items (λ b x. IsLed (picked (terms_in tables.now) numbers.now) from.now b x)) }
{
    for number in from {
        let slot = *number / PLACES;
        let place = (*number % PLACES) as u32;
        tables[numbers[slot as usize] as usize].edges(place, slot * PLACES, to)?;
    }
    Ok(())
}

/// Adds the edges of the places of one table, each place that is led to once.
fn gather_many(
    tables: &[Table],
    numbers: &[u32],
    from: &[u64],
    slot: u64,
    to: &mut Vec<Edge>,
) -> Result<(), OutOfMemory>
    requires tables { AreTables (picked (terms_in tables.now) numbers.now) }
    requires numbers { (i : ℕ) → Has numbers.now i → i < length tables.now }
    requires from { AreNumbers (picked (terms_in tables.now) numbers.now) from.now }
    requires slot { slot < length numbers.now }
    requires one { (g : ℕ) → Has from.now g → table_of g ≡ slot }
    ensures { OnOk result (AddsEdges to.old.items to.new.items (λ b x. IsLed (picked (terms_in tables.now) numbers.now) from.now b x)) }
{
    let table = &tables[numbers[slot as usize] as usize];
    let alloc = *to.allocator();
    let mut places = Vec::new(alloc);
    for number in from {
        places.push((*number % PLACES) as u32)?;
    }
    let mut scratch = Scratch::new(alloc, table.room())?;
    table.edges_of(&places, slot * PLACES, &mut scratch, to)
}

/// The end of the run of one table's numbers that begins at a place of the list.
fn run_end(from: &[u64], at: usize) -> usize
    requires { at < length from.now }
    ensures above { at < result }
    ensures within { result ≤ length from.now }
    ensures same { (k : ℕ) → at ≤ k → k < result → table_of (slice_index_or from.now k 0) ≡ table_of (slice_index_or from.now at 0) }
{
    let slot = from[at] / PLACES;
    let mut end = at + 1;
    while end < from.len() && from[end] / PLACES == slot {
        end += 1;
    }
    end
}

/// Adds the edges of the places of a run.
fn gather_run(
    tables: &[Table],
    numbers: &[u32],
    from: &[u64],
    at: usize,
    end: usize,
    to: &mut Vec<Edge>,
) -> Result<(), OutOfMemory>
    requires tables { AreTables (picked (terms_in tables.now) numbers.now) }
    requires numbers { (i : ℕ) → Has numbers.now i → i < length tables.now }
    requires from { AreNumbers (picked (terms_in tables.now) numbers.now) from.now }
    requires at { at < end }
    requires end { end ≤ length from.now }
    requires same { (k : ℕ) → at ≤ k → k < end → table_of (slice_index_or from.now k 0) ≡ table_of (slice_index_or from.now at 0) }
    ensures { OnOk result (AddsEdges to.old.items to.new.items (λ b x. IsLed (picked (terms_in tables.now) numbers.now) (take (end - at) (drop at from.now)) b x)) }
{
    if end - at < MANY {
        gather_few(tables, numbers, &from[at..end], to)
    } else {
        gather_many(tables, numbers, &from[at..end], from[at] / PLACES, to)
    }
}

/// From so many live places of one table on, their edges are made together, since they may lead to the same places.
const MANY: usize = 16;

/// The edges of the places: what they read, and the numbers of the places that this leads to.
pub fn gather(
    tables: &[Table],
    numbers: &[u32],
    from: &[u64],
    to: &mut Vec<Edge>,
) -> Result<(), OutOfMemory>
    requires tables { AreTables (picked (terms_in tables.now) numbers.now) }
    requires numbers { (i : ℕ) → Has numbers.now i → i < length tables.now }
    requires from { AreNumbers (picked (terms_in tables.now) numbers.now) from.now }
    requires empty { to.old.items ≡ [] }
    ensures { OnOk result (AddsEdges [] to.new.items (λ b x. IsLed (picked (terms_in tables.now) numbers.now) from.now b x)) }
{
    let mut at = 0;
    while at < from.len() {
        let end = run_end(from, at);
        gather_run(tables, numbers, from, at, end, to)?;
        at = end;
    }
    Ok(())
}

/// Whether the empty text is in the term of a live place.
fn ends_at(tables: &[Table], numbers: &[u32], number: u64) -> bool
    requires numbers { (i : ℕ) → Has numbers.now i → i < length tables.now }
    requires number { AreNumbers (picked (terms_in tables.now) numbers.now) (number ∷ []) }
    ensures { IsTrue result ↔ Ends (picked (terms_in tables.now) numbers.now) (number ∷ []) (number / 4294967296) }
{
    let slot = number / PLACES;
    let place = (number % PLACES) as u32;
    tables[numbers[slot as usize] as usize].ends_at(place)
}

/// Whether the empty text is in the term of one of a table's live places.
fn ends_in(tables: &[Table], numbers: &[u32], list: &[u64], slot: u32) -> bool
    requires numbers { (i : ℕ) → Has numbers.now i → i < length tables.now }
    requires list { AreNumbers (picked (terms_in tables.now) numbers.now) list.now }
    ensures { IsTrue result ↔ Ends (picked (terms_in tables.now) numbers.now) list.now slot }
{
    for number in list {
        if *number / PLACES == slot as u64 && ends_at(tables, numbers, *number) {
            return true;
        }
    }
    false
}

/// Whether the empty text is in the term of a live place whose table must not have the text.
fn ends_unwanted(tables: &[Table], numbers: &[u32], holds: &[bool], list: &[u64]) -> bool
    requires numbers { (i : ℕ) → Has numbers.now i → i < length tables.now }
    requires list { AreNumbers (picked (terms_in tables.now) numbers.now) list.now }
    requires long { length holds.now ≡ length numbers.now }
    ensures { IsTrue result ↔ ((i : ℕ) × (hold_at holds.now i ≡ false) × Ends (picked (terms_in tables.now) numbers.now) list.now i) }
{
    for number in list {
        if !holds[(*number / PLACES) as usize] && ends_at(tables, numbers, *number) {
            return true;
        }
    }
    false
}

/// Whether the empty text is in the term of a live place for each table that has to have the text, and for no other
/// table.
pub fn ends_as(
    tables: &[Table],
    numbers: &[u32],
    holds: &[bool],
    wanted: &[u32],
    list: &[u64],
) -> bool
    requires numbers { (i : ℕ) → Has numbers.now i → i < length tables.now }
    requires list { AreNumbers (picked (terms_in tables.now) numbers.now) list.now }
    requires long { length holds.now ≡ length numbers.now }
    requires wanted { AreWanted holds.now wanted.now }
    ensures { IsTrue result ↔ ((i : ℕ) → i < length holds.now → Is (hold_at holds.now i) (Ends (picked (terms_in tables.now) numbers.now) list.now i)) }
{
    if ends_unwanted(tables, numbers, holds, list) {
        return false;
    }
    for slot in wanted {
        if !ends_in(tables, numbers, list, *slot) {
            return false;
        }
    }
    true
}
