// Maps of headers: made from headers, and read again.
ghost use Rattle.std.specs.Prelude.{◌≡◌, ◌<◌, ◌≤◌, ℕ, ◌+◌, ◌++◌, ◌∷◌, [], true, length, take, IfOk, OnOk, OnErr};
ghost use Rattle.std.specs.List.{list_all};
ghost use Rattle.text_base.specs.Heads.{SameHeads};
ghost use Rattle.http_header.specs.HeaderMap.{IsHeaderMap};
ghost use Rattle.head_edit.specs.Maps.{heads_of, is_map_head};

use crate::values::{name_of, value_of};
use http_header::{HeaderMap, HeaderMapError, HeaderName, HeaderValue, MAX_KEYS};
use sqlite_items::Items;
use std::alloc::Global;
use text_base::{Heads, OutOfMemory};

/// One more value of the name.
pub(crate) fn append(
    map: &mut HeaderMap<HeaderValue>,
    name: HeaderName,
    value: HeaderValue,
) -> Result<(), OutOfMemory>
    requires room { length (heads_of map.old) < MAX_KEYS }
    requires valid { IsHeaderMap map.old }
    ensures ok { OnOk result (SameHeads (heads_of map.new) (heads_of map.old ++ (name, value.bytes) ∷ [])) }
    ensures err { OnErr result (map.new ≡ map.old) }
    ensures size { OnOk result (length (heads_of map.new) ≡ length (heads_of map.old) + 1) }
    ensures stays_valid { IsHeaderMap map.new }
{
    match map.append(name, value) {
        Ok(_) => Ok(()),
        Err(HeaderMapError::OutOfMemory) => Err(OutOfMemory),
        Err(HeaderMapError::MaxSizeReached) => unreachable!(),
    }
}

/// Adds a header behind those of its name. The map has fewer than 24,576 headers, the name is a token in lower case of
/// at most 1,024 bytes, and the value is printed. Without memory the map stays as it was.
pub fn add_head(
    alloc: Global,
    map: &mut HeaderMap<HeaderValue>,
    name: &[u8],
    value: &[u8],
) -> Result<(), OutOfMemory>
    requires room { length (heads_of map.old) < MAX_KEYS }
    requires valid { is_map_head (name.now, value.now) ≡ true }
    ensures ok { OnOk result (SameHeads (heads_of map.new) (heads_of map.old ++ (name.now, value.now) ∷ [])) }
    ensures err { OnErr result (map.new ≡ map.old) }
    ensures size { OnOk result (length (heads_of map.new) ≡ length (heads_of map.old) + 1) }
{
    let count = map.len();
    prove!(count < MAX_KEYS);
    let name = name_of(alloc, name)?;
    append(map, name, value_of(alloc, value)?)
}

/// Adds these headers in order, each behind those of its name, by the conditions of `add_head`. Without memory some first
/// ones are added.
pub fn add_heads(
    alloc: Global,
    map: &mut HeaderMap<HeaderValue>,
    heads: &[(Items<u8>, Items<u8>)],
) -> Result<(), OutOfMemory>
    requires room { length (heads_of map.old) + length heads.now ≤ MAX_KEYS }
    requires valid { list_all is_map_head heads.now ≡ true }
    ensures ok { OnOk result (SameHeads (heads_of map.new) (heads_of map.old ++ heads.now)) }
    ensures err { OnErr result ((n : ℕ) × (n < length heads.now) × SameHeads (heads_of map.new) (heads_of map.old ++ take n heads.now)) }
    ensures size { OnOk result (length (heads_of map.new) ≡ length (heads_of map.old) + length heads.now) }
{
    for head in heads {
        add_head(alloc, map, head.0.as_slice(), head.1.as_slice())?;
    }
    Ok(())
}

/// A map of these headers, at most 24,576, whose names are tokens in lower case of at most 1,024 bytes and whose values
/// are printed.
pub fn map_of(
    alloc: Global,
    heads: &[(Items<u8>, Items<u8>)],
) -> Result<HeaderMap<HeaderValue>, OutOfMemory>
    requires few { length heads.now ≤ MAX_KEYS }
    requires valid { list_all is_map_head heads.now ≡ true }
    ensures same { IfOk result (λ m. SameHeads (heads_of m) heads.now) }
    ensures size { IfOk result (λ m. length (heads_of m) ≡ length heads.now) }
{
    let mut map = HeaderMap::new(alloc);
    add_heads(alloc, &mut map, heads)?;
    Ok(map)
}

fn head_of(alloc: Global, name: &[u8], value: &[u8]) -> Result<(Items<u8>, Items<u8>), OutOfMemory>
    ensures { IfOk result (λ h. h ≡ (name.now, value.now)) }
{
    let name = Items::from_slice(alloc, name)?;
    Ok((name, Items::from_slice(alloc, value)?))
}

/// The headers of a map: names in the map's order, the values of each name in theirs.
pub fn heads_from(alloc: Global, map: &HeaderMap<HeaderValue>) -> Result<Heads, OutOfMemory>
    ensures { IfOk result (λ heads. heads.list ≡ heads_of map.now) }
{
    let mut list = Items::new(alloc);
    for (name, value) in map.iter() {
        list.push(head_of(alloc, name.as_bytes(), value.as_bytes())?)?;
    }
    Ok(Heads { list })
}
