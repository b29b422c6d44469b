// One addition of a level.
ghost use Rattle.std.specs.Prelude.{◌≡◌, ◌<◌, ◌≤◌, ◌+◌, length, OnOk, OnErr};
ghost use Rattle.text_base.specs.Heads.{SameHeads};
ghost use Rattle.http_header.specs.HeaderMap.{IsHeaderMap};
ghost use Rattle.cfg_types.specs.HeaderEdits.{added, added_as, overwritten};
ghost use Rattle.cfg_types.specs.Lawful.{IsLawfulAddition};
ghost use Rattle.head_edit.specs.Maps.{heads_of};

use crate::maps::append;
use crate::values::{name_of, undoubled_value};
use cfg_types::{Addition, How};
use http_header::{HeaderMap, HeaderMapError, HeaderName, HeaderValue, MAX_KEYS};
use std::alloc::Global;
use text_base::OutOfMemory;

/// The value in place of all values of the name.
fn overwrite(
    map: &mut HeaderMap<HeaderValue>,
    name: HeaderName,
    value: HeaderValue,
) -> Result<(), OutOfMemory>
    requires room { length (heads_of map.old) < MAX_KEYS }
    requires valid { IsHeaderMap map.old }
    ensures ok { OnOk result (SameHeads (heads_of map.new) (overwritten (name, value.bytes) (heads_of map.old))) }
    ensures err { OnErr result (map.new ≡ map.old) }
    ensures size { length (heads_of map.new) ≤ length (heads_of map.old) + 1 }
    ensures stays_valid { IsHeaderMap map.new }
{
    match map.insert(name, value) {
        Ok(_) => Ok(()),
        Err(HeaderMapError::OutOfMemory) => Err(OutOfMemory),
        Err(HeaderMapError::MaxSizeReached) => unreachable!(),
    }
}

/// Adds a value in this way.
fn add_as(
    map: &mut HeaderMap<HeaderValue>,
    how: How,
    name: HeaderName,
    value: HeaderValue,
) -> Result<(), OutOfMemory>
    requires room { length (heads_of map.old) < MAX_KEYS }
    requires valid { IsHeaderMap map.old }
    ensures ok { OnOk result (SameHeads (heads_of map.new) (added_as how (name, value.bytes) (heads_of map.old))) }
    ensures err { OnErr result (map.new ≡ map.old) }
    ensures size { length (heads_of map.new) ≤ length (heads_of map.old) + 1 }
    ensures stays_valid { IsHeaderMap map.new }
{
    let there = map.contains_key(&name);
    match how {
        How::Append => append(map, name, value),
        How::IfAbsent if there => Ok(()),
        How::IfAbsent => append(map, name, value),
        How::Overwrite => overwrite(map, name, value),
        How::OverwriteIfThere if there => overwrite(map, name, value),
        How::OverwriteIfThere => Ok(()),
    }
}

/// Takes one addition. Without memory the map stays as it was.
pub fn add(
    alloc: Global,
    map: &mut HeaderMap<HeaderValue>,
    addition: &Addition,
) -> Result<(), OutOfMemory>
    requires room { length (heads_of map.old) < MAX_KEYS }
    requires valid { IsHeaderMap map.old }
    requires lawful { IsLawfulAddition addition.now }
    ensures ok { OnOk result (SameHeads (heads_of map.new) (added (heads_of map.old) addition.now)) }
    ensures err { OnErr result (map.new ≡ map.old) }
    ensures size { length (heads_of map.new) ≤ length (heads_of map.old) + 1 }
    ensures stays_valid { IsHeaderMap map.new }
{
    let text = addition.value.as_bytes();
    if text.is_empty() && !addition.keep_empty {
        return Ok(());
    }
    let name = name_of(alloc, addition.name.as_bytes())?;
    let value = undoubled_value(alloc, text)?;
    add_as(map, addition.how, name, value)
}
