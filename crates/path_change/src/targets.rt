// The target of a request after its route.
ghost use Rattle.std.specs.Prelude.{◌≡◌, IfOk};
ghost use Rattle.cfg_types.specs.Targets as definition;
ghost use Rattle.path_change.specs.Paths.{rewrite_of as rewrite_by};

use crate::pieces::{push_path, query_of};
use cfg_types::{Act, Route};
use req_model::Request;
use std::alloc::Global;
use text_base::OutOfMemory;

/// The text that the route puts into the path. Only forwarding has one.
fn rewrite_of(act: &Act) -> &[u8]
    ensures { result.now ≡ rewrite_by act.now }
{
    match act {
        Act::Forward(forward) => forward.prefix_rewrite.as_bytes(),
        Act::Redirect(_) | Act::Direct { .. } => &[],
    }
}

/// The target after the route. Where it forwards with a `prefix_rewrite` that isn't empty, this text swaps the matched
/// prefix (of a prefix rule) or the whole path (of the others); the rest of the path and the query stay.
pub fn new_target(alloc: Global, route: &Route, request: &Request) -> Result<Vec<u8>, OutOfMemory>
    ensures { IfOk result (λ v. v.items ≡ definition.new_target route.now request.now) }
{
    let rewrite = rewrite_of(&route.act);
    let mut target = Vec::new(alloc);
    push_path(&mut target, &route.rule.path, rewrite, request.path_part())?;
    target.extend_from_slice(query_of(request))?;
    Ok(target)
}
