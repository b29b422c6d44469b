// The virtual cluster of a forwarded request.
ghost use Rattle.std.specs.Prelude.{◌≡◌, IfOk};
ghost use Rattle.cfg_types.specs.HeaderRules.{header_holds, headers_hold};
ghost use Rattle.cfg_types.specs.VirtualClusters.{virtual_cluster_of};

use cfg_types::{HeaderRule, VirtualCluster};
use req_model::Request;
use route_match::{HeaderTest, Scratch};
use std::alloc::Global;
use text_base::{OutOfMemory, Text};

/// Whether the rule holds on the request as received.
fn rule_holds(alloc: Global, rule: &HeaderRule, request: &Request) -> Result<bool, OutOfMemory>
    ensures { IfOk result (λ b. b ≡ header_holds rule.now request.now) }
{
    let test = HeaderTest::build(alloc, rule)?;
    let mut scratch = Scratch::new(alloc, test.room())?;
    Ok(test.holds(request, &mut scratch))
}

/// Whether all rules hold on the request as received.
fn rules_hold(alloc: Global, rules: &[HeaderRule], request: &Request) -> Result<bool, OutOfMemory>
    ensures { IfOk result (λ b. b ≡ headers_hold rules.now request.now) }
{
    for rule in rules {
        if !rule_holds(alloc, rule, request)? {
            return Ok(false);
        }
    }
    Ok(true)
}

/// The name of the first virtual cluster whose rules all hold on the request as received, else `other`.
pub fn virtual_cluster(
    alloc: Global,
    clusters: &[VirtualCluster],
    request: &Request,
) -> Result<Text, OutOfMemory>
    ensures { IfOk result (λ t. t ≡ virtual_cluster_of clusters.now request.now) }
{
    for cluster in clusters {
        if rules_hold(alloc, cluster.headers.as_slice(), request)? {
            return cluster.name.copy(alloc);
        }
    }
    Text::of(alloc, "other")
}
