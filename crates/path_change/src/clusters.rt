// The cluster that a target gives a request.
ghost use Rattle.std.specs.Prelude.{◌≡◌, ◌&&◌, [], IfOk, option_map, option_and_then, unwrap_or, slice_get, find, codes, bytes_eq};
ghost use Rattle.std.specs.Option.{option_copied};
ghost use Rattle.text_base.specs.Heads.{heads};
ghost use Rattle.text_base.specs.Seen.{values};
ghost use Rattle.cfg_types.specs.Shares.{picked_share};
ghost use Rattle.cfg_types.specs.Answers as definition;

use crate::shares::share_at;
use cfg_types::{Share, Target};
use req_model::Request;
use sqlite_items::Items;
use std::alloc::Global;
use text_base::{OutOfMemory, Parts, Text};

/// The first header of a name.
fn head_named<'a>(
    heads: &'a [(Items<u8>, Items<u8>)],
    name: &[u8],
) -> Option<&'a (Items<u8>, Items<u8>)>
    ensures { option_copied result ≡ find (λ h. bytes_eq h.0 name.now) heads.now }
{
    heads.iter().find(|head| head.0.as_slice() == name)
}

/// Whether the request has a header of this name because it is internal.
fn marks_internal(parts: &Parts, name: &[u8]) -> bool
    ensures { result ≡ (parts.now.internal && bytes_eq (codes "x-envoy-internal") name.now) }
{
    parts.internal && b"x-envoy-internal".as_slice() == name
}

/// The first value of a name among the headers that a request has from the start.
fn first_header<'a>(parts: &'a Parts, name: &[u8]) -> Option<&'a [u8]>
    ensures { option_copied result ≡ slice_get (values name.now (heads parts.now)) 0 }
{
    if b"x-forwarded-proto".as_slice() == name {
        return Some(if parts.https { b"https" } else { b"http" });
    }
    if marks_internal(parts, name) {
        return Some(b"true");
    }
    let head = head_named(parts.headers.as_slice(), name)?;
    Some(head.1.as_slice())
}

/// The first value of a name among these headers. `:authority`, `:path` and `:method` name parts of the request.
fn first_value<'a>(parts: &'a Parts, name: &[u8]) -> Option<&'a [u8]>
    ensures { option_copied result ≡ definition.first_value parts.now (heads parts.now) name.now }
{
    if name == b":authority".as_slice() {
        Some(parts.authority.as_slice())
    } else if name == b":path".as_slice() {
        Some(parts.target.as_slice())
    } else if name == b":method".as_slice() {
        Some(parts.method.as_slice())
    } else {
        first_header(parts, name)
    }
}

/// That value as text, or the empty text. A valid request has bytes of ASCII alone.
fn first_text<'a>(request: &'a Request, name: &[u8]) -> &'a str
    ensures { result.now ≡ unwrap_or (definition.first_value request.now (heads request.now) name.now) [] }
{
    let parts = request.parts();
    let Some(value) = first_value(parts, name) else {
        return "";
    };
    match str::from_utf8(value) {
        Ok(text) => text,
        Err(_) => unreachable!(),
    }
}

/// The name of the share that the random value picks, or the empty text.
fn picked_name(shares: &[Share], random: u64) -> &str
    ensures { result.now ≡ unwrap_or (option_map (λ s. s.name) (option_and_then (slice_get shares.now) (picked_share shares.now random))) [] }
{
    match share_at(shares, random) {
        Some(at) => shares[at].name.as_str(),
        None => "",
    }
}

/// The cluster that the target gives the request: the named one, the share that the random value picks, or the first
/// value of the named header. Without that header, or where the weights add up to 0, it is the empty name.
pub fn cluster_of(alloc: Global, target: &Target, request: &Request) -> Result<Text, OutOfMemory>
    ensures { IfOk result (λ t. t ≡ definition.cluster_of target.now request.now) }
{
    match target {
        Target::Cluster(name) => name.copy(alloc),
        Target::FromHeader(name) => Text::of(alloc, first_text(request, name.as_bytes())),
        Target::Weighted(shares) => {
            let name = picked_name(shares.as_slice(), request.parts().random);
            Text::of(alloc, name)
        }
    }
}
