// The levels of header edits, in the order in which they apply.
ghost use Rattle.std.specs.Prelude.{◌≡◌, ◌≤◌, IfOk, length};
ghost use Rattle.std.specs.Option.{option_copied};
ghost use Rattle.cfg_types.specs.Answers as definition;
ghost use Rattle.cfg_types.specs.Lawful.{IsLawfulTarget, IsLawfulAct};
ghost use Rattle.route_answer.specs.Levels.{pairs_of};

use cfg_types::{Act, Config, EditPair, Host, Route, Share, Target};
use path_change::pick_share;
use req_model::Request;
use std::alloc::Global;
use text_base::OutOfMemory;

/// The share of a weighted target that the request's random value picks. Takes no memory.
fn share_of<'a>(target: &'a Target, request: &Request) -> Option<&'a Share>
    requires { IsLawfulTarget target.now }
    ensures { option_copied result ≡ definition.share_of target.now request.now }
{
    match target {
        Target::Cluster(_) | Target::FromHeader(_) => None,
        Target::Weighted(shares) => {
            let shares = shares.as_slice();
            Some(&shares[pick_share(shares, request.parts().random)])
        }
    }
}

/// The share that the action picks for the request. Only forwarding picks one. Takes no memory.
pub fn picked_share<'a>(act: &'a Act, request: &Request) -> Option<&'a Share>
    requires { IsLawfulAct act.now }
    ensures { option_copied result ≡ definition.share_in act.now request.now }
{
    match act {
        Act::Forward(forward) => share_of(&forward.to, request),
        Act::Redirect(_) | Act::Direct { .. } => None,
    }
}

/// The levels in their order: the picked share, the route, the host and the configuration, or the reverse where the most
/// specific is to win. They are at most four.
pub fn levels<'a>(
    alloc: Global,
    config: &'a Config,
    host: &'a Host,
    route: &'a Route,
    share: Option<&'a Share>,
) -> Result<Vec<&'a EditPair>, OutOfMemory>
    ensures order { IfOk result (λ v. pairs_of v.items ≡ definition.levels config.now host.now route.now (option_copied share.entry)) }
    ensures few { IfOk result (λ v. length v.items ≤ 4) }
{
    let mut levels = Vec::new(alloc);
    if let Some(share) = share {
        levels.push(&share.edits)?;
    }
    levels.push(&route.edits)?;
    levels.push(&host.edits)?;
    levels.push(&config.edits)?;
    if config.specific_wins {
        levels.reverse();
    }
    Ok(levels)
}
