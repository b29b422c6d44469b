// The authority of a forwarded request.
ghost use Rattle.std.specs.Prelude.{◌≡◌, IfOk, option_and_then, unwrap_or, slice_get, find, bytes_eq};
ghost use Rattle.std.specs.Option.{option_copied};
ghost use Rattle.text_base.specs.Seen.{values, not_empty};
ghost use Rattle.cfg_types.specs.Answers as definition;

use cfg_types::HostChange;
use req_model::Request;
use sqlite_items::Items;
use std::alloc::Global;
use text_base::{Heads, OutOfMemory, Parts};

/// The first header of a name.
fn head_named<'a>(
    heads: &'a [(Items<u8>, Items<u8>)],
    name: &[u8],
) -> Option<&'a (Items<u8>, Items<u8>)>
    ensures { option_copied result ≡ find (λ h. bytes_eq h.0 name.now) heads.now }
{
    heads.iter().find(|head| head.0.as_slice() == name)
}

/// The first value of a name among these headers.
fn first_header<'a>(heads: &'a [(Items<u8>, Items<u8>)], name: &[u8]) -> Option<&'a [u8]>
    ensures { option_copied result ≡ slice_get (values name.now heads.now) 0 }
{
    let head = head_named(heads, name)?;
    Some(head.1.as_slice())
}

/// The first value of a name among these headers. `:path` names this target, `:authority` and `:method` parts of the
/// request.
fn first_value<'a>(
    parts: &'a Parts,
    target: &'a [u8],
    heads: &'a Heads,
    name: &[u8],
) -> Option<&'a [u8]>
    ensures { option_copied result ≡ definition.first_value (record parts.now { target = target.now }) heads.now.list name.now }
{
    if name == b":authority".as_slice() {
        Some(parts.authority.as_slice())
    } else if name == b":path".as_slice() {
        Some(target)
    } else if name == b":method".as_slice() {
        Some(parts.method.as_slice())
    } else {
        first_header(heads.list.as_slice(), name)
    }
}

/// That value where it is there and isn't empty, else the authority.
fn named_host<'a>(parts: &'a Parts, target: &'a [u8], heads: &'a Heads, name: &[u8]) -> &'a [u8]
    ensures { result.now ≡ unwrap_or (option_and_then not_empty (definition.first_value (record parts.now { target = target.now }) heads.now.list name.now)) parts.now.authority }
{
    match first_value(parts, target, heads, name) {
        None | Some([]) => parts.authority.as_slice(),
        Some(value) => value,
    }
}

/// The authority of the forwarded request: its own, another, or the first value of a header among these where it is there
/// and isn't empty. `:path` names this target.
pub fn authority_of(
    alloc: Global,
    change: &HostChange,
    request: &Request,
    target: &[u8],
    heads: &Heads,
) -> Result<Items<u8>, OutOfMemory>
    ensures { IfOk result (λ a. a ≡ definition.authority_of change.now request.now target.now heads.now.list) }
{
    let parts = request.parts();
    match change {
        HostChange::Keep => Items::from_slice(alloc, parts.authority.as_slice()),
        HostChange::Literal(host) => Items::from_slice(alloc, host.as_bytes()),
        HostChange::FromHeader(name) => {
            Items::from_slice(alloc, named_host(parts, target, heads, name.as_bytes()))
        }
    }
}
