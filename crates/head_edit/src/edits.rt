// The edits of one level.
ghost use Rattle.std.specs.Prelude.{◌<◌, ◌≤◌, ◌+◌, ℕ, length, fold, take, All, IsTrue, OnOk, OnErr};
ghost use Rattle.text_base.specs.Heads.{SameHeads};
ghost use Rattle.http_header.specs.HeaderMap.{IsHeaderMap};
ghost use Rattle.cfg_types.specs.HeaderEdits.{without_names, added, edited};
ghost use Rattle.cfg_types.specs.Kinds.{is_edit_name};
ghost use Rattle.cfg_types.specs.Lawful.{IsLawfulAddition, AreLawfulEdits};
ghost use Rattle.head_edit.specs.Maps.{heads_of, first_edits};

use crate::additions::add;
use cfg_types::{Addition, Edits};
use http_header::{HeaderMap, HeaderValue, MAX_KEYS};
use std::alloc::Global;
use text_base::{OutOfMemory, Text};

/// The most headers of a map that a level's edits are applied to: a request's 1,000 and its two marks, and 1,000 of each
/// of three earlier levels.
pub const MAX_HEADS: usize = 4002;

/// Removes all headers of these names. Takes no memory.
fn remove_all(map: &mut HeaderMap<HeaderValue>, names: &[Text])
    requires valid { IsHeaderMap map.old }
    requires lawful { All (λ n. IsTrue (is_edit_name n)) names.now }
    ensures after { SameHeads (heads_of map.new) (without_names names.now (heads_of map.old)) }
    ensures size { length (heads_of map.new) ≤ length (heads_of map.old) }
    ensures stays_valid { IsHeaderMap map.new }
{
    for name in names {
        map.remove(name.as_bytes());
    }
}

/// Takes the additions in order. Without memory some first ones are taken.
fn add_all(
    alloc: Global,
    map: &mut HeaderMap<HeaderValue>,
    additions: &[Addition],
) -> Result<(), OutOfMemory>
    requires room { length (heads_of map.old) + length additions.now ≤ MAX_KEYS }
    requires valid { IsHeaderMap map.old }
    requires lawful { All IsLawfulAddition additions.now }
    ensures ok { OnOk result (SameHeads (heads_of map.new) (fold added (heads_of map.old) additions.now)) }
    ensures err { OnErr result ((n : ℕ) × (n < length additions.now) × SameHeads (heads_of map.new) (fold added (heads_of map.old) (take n additions.now))) }
    ensures size { length (heads_of map.new) ≤ length (heads_of map.old) + length additions.now }
{
    for addition in additions {
        add(alloc, map, addition)?;
    }
    Ok(())
}

/// Takes the edits of one level: the removals, and then the additions in order. The map has at most `MAX_HEADS`
/// headers, so that its size never refuses one. Without memory the removals and some first additions are taken.
pub fn apply(
    alloc: Global,
    map: &mut HeaderMap<HeaderValue>,
    level: &Edits,
) -> Result<(), OutOfMemory>
    requires few { length (heads_of map.old) ≤ MAX_HEADS }
    requires lawful { AreLawfulEdits level.now }
    ensures ok { OnOk result (SameHeads (heads_of map.new) (edited (heads_of map.old) level.now)) }
    ensures err { OnErr result ((n : ℕ) × (n < length level.now.add) × SameHeads (heads_of map.new) (edited (heads_of map.old) (first_edits n level.now))) }
    ensures size { length (heads_of map.new) ≤ length (heads_of map.old) + length level.now.add }
{
    let count = map.len();
    prove!(count <= MAX_HEADS);
    remove_all(map, level.remove.as_slice());
    add_all(alloc, map, level.add.as_slice())
}
