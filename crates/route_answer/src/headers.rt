// The headers of a request and of its response, after the edits of levels.
ghost use Rattle.std.specs.Prelude.{◌≡◌, ◌≤◌, ◌+◌, ◌++◌, true, length, All, IfOk, OnOk};
ghost use Rattle.std.specs.List.{list_all};
ghost use Rattle.text_base.specs.Heads.{heads, internal_heads, SameHeads};
ghost use Rattle.text_base.specs.Requests.{is_header};
ghost use Rattle.cfg_types.specs.Redirects.{proto};
ghost use Rattle.cfg_types.specs.HeaderEdits.{edited_request, edited_response};
ghost use Rattle.cfg_types.specs.Lawful.{IsLawfulPair};
ghost use Rattle.head_edit.specs.Maps.{heads_of};
ghost use Rattle.cfg_types.specs.Conditions.{AreFewHeads};
ghost use Rattle.route_answer.specs.Levels.{pairs_of};

use cfg_types::EditPair;
use head_edit::{add_head, add_heads, apply, heads_from, map_of};
use http_header::{HeaderMap, HeaderValue};
use req_model::Request;
use std::alloc::Global;
use text_base::{Heads, OutOfMemory};

fn proto_of(https: bool) -> &'static [u8]
    ensures { result.now ≡ proto https }
{
    if https { b"https" } else { b"http" }
}

/// Adds the header of an internal request.
fn mark_internal(
    alloc: Global,
    map: &mut HeaderMap<HeaderValue>,
    internal: bool,
) -> Result<(), OutOfMemory>
    requires { length (heads_of map.old) ≤ 1 }
    ensures same { OnOk result (SameHeads (heads_of map.new) (heads_of map.old ++ internal_heads internal)) }
    ensures size { OnOk result (length (heads_of map.new) ≤ length (heads_of map.old) + 1) }
{
    if internal {
        return add_head(
            alloc,
            map,
            b"x-envoy-internal".as_slice(),
            b"true".as_slice(),
        );
    }
    Ok(())
}

/// The headers that a request has from the start: its proto, the mark of an internal one, and its own.
fn first_heads(alloc: Global, request: &Request) -> Result<HeaderMap<HeaderValue>, OutOfMemory>
    requires { AreFewHeads request.now.headers }
    ensures same { IfOk result (λ m. SameHeads (heads_of m) (heads request.now)) }
    ensures size { IfOk result (λ m. length (heads_of m) ≤ 1002) }
{
    let parts = request.parts();
    let proto = proto_of(parts.https);
    let mut map = HeaderMap::new(alloc);
    add_head(alloc, &mut map, b"x-forwarded-proto".as_slice(), proto)?;
    mark_internal(alloc, &mut map, parts.internal)?;
    add_heads(alloc, &mut map, parts.headers.as_slice())?;
    Ok(map)
}

/// Takes the edits of requests of at most four levels. Without memory some first edits are taken.
fn edit_request(
    alloc: Global,
    map: &mut HeaderMap<HeaderValue>,
    levels: &[&EditPair],
) -> Result<(), OutOfMemory>
    requires room { length (heads_of map.old) ≤ 1002 }
    requires few { length levels.now ≤ 4 }
    requires lawful { All IsLawfulPair (pairs_of levels.now) }
    ensures { OnOk result (SameHeads (heads_of map.new) (edited_request (pairs_of levels.now) (heads_of map.old))) }
{
    for level in levels {
        apply(alloc, map, &level.request)?;
    }
    Ok(())
}

/// Takes the edits of responses of at most four levels. Without memory some first edits are taken.
fn edit_response(
    alloc: Global,
    map: &mut HeaderMap<HeaderValue>,
    levels: &[&EditPair],
) -> Result<(), OutOfMemory>
    requires room { length (heads_of map.old) ≤ 1002 }
    requires few { length levels.now ≤ 4 }
    requires lawful { All IsLawfulPair (pairs_of levels.now) }
    ensures { OnOk result (SameHeads (heads_of map.new) (edited_response (pairs_of levels.now) (heads_of map.old))) }
{
    for level in levels {
        apply(alloc, map, &level.response)?;
    }
    Ok(())
}

/// The headers of the request after the edits of at most four levels.
pub fn request_heads(
    alloc: Global,
    levels: &[&EditPair],
    request: &Request,
) -> Result<Heads, OutOfMemory>
    requires few { length levels.now ≤ 4 }
    requires lawful { All IsLawfulPair (pairs_of levels.now) }
    requires heads { AreFewHeads request.now.headers }
    ensures { IfOk result (λ h. SameHeads h.list (edited_request (pairs_of levels.now) (heads request.now))) }
{
    let mut map = first_heads(alloc, request)?;
    edit_request(alloc, &mut map, levels)?;
    heads_from(alloc, &map)
}

/// The headers of the response after the edits of at most four levels.
pub fn response_heads(
    alloc: Global,
    levels: &[&EditPair],
    response: &Heads,
) -> Result<Heads, OutOfMemory>
    requires few { length levels.now ≤ 4 }
    requires lawful { All IsLawfulPair (pairs_of levels.now) }
    requires heads { AreFewHeads response.now.list }
    requires valid { list_all is_header response.now.list ≡ true }
    ensures { IfOk result (λ h. SameHeads h.list (edited_response (pairs_of levels.now) response.now.list)) }
{
    let mut map = map_of(alloc, response.list.as_slice())?;
    edit_response(alloc, &mut map, levels)?;
    heads_from(alloc, &map)
}
