// Clusters with weights.
ghost use Rattle.std.specs.Prelude.{◌≡◌, Some, None, nat_le, if◌then◌else◌};
ghost use Rattle.json_walk.specs.Outcome.{Gives};
ghost use Rattle.json_walk.specs.Numbers.{count};
ghost use Rattle.cfg_types.specs.Shares.{weight_of};
ghost use Rattle.read_action.specs.Clusters.{cluster_weight, fit_sum as fit_sum_of, same_total as same_total_of, weighted_cluster};

use crate::edits::read_edits;
use cfg_types::Share;
use json_walk::{
    Kind, ListOf, Message, ReadFail, Reader, Text, count_of, field_place, members, optional,
    refused_at, required,
};
use read_match::SomeName;
use serde_json::Value;
use sqlite_items::Items;
use std::alloc::Global;

/// A whole number of 32 bits without a sign.
#[derive(Drop)]
struct Weight;

impl Reader for Weight {
    type Out = u32;

    ghost reads = { λ _. count 0 4294967295 };

    fn read(&self, alloc: Global, value: &Value, place: &Text) -> Result<u32, ReadFail> {
        let number = count_of(alloc, value, place, 0, u32::MAX as u64)?;
        Ok(number as u32)
    }
}

/// A ClusterWeight: a cluster, its weight and the header edits of its level.
#[derive(Drop)]
pub struct ClusterWeight;

impl Reader for ClusterWeight {
    type Out = Share;

    ghost reads = { λ _. cluster_weight };

    #[tactic(auto, unfolding(crate::specs::Clusters::cluster_weight))]
    fn read(&self, alloc: Global, value: &Value, place: &Text) -> Result<Share, ReadFail> {
        const M: Message = Message::ClusterWeight;
        let names = members(alloc, value, place, M)?;
        let name = required(alloc, value, place, &names, M, 0, &SomeName)?;
        let weight = required(alloc, value, place, &names, M, 1, &Weight)?;
        let edits = read_edits(alloc, value, place)?;
        Ok(Share {
            name,
            weight,
            edits,
        })
    }
}

/// The sum of the weights, where it fits 32 bits.
fn sum_of(shares: &[Share]) -> Option<u32>
    ensures { result ≡ (if nat_le (weight_of shares.now) 4294967295 then Some (weight_of shares.now) else None) }
{
    let mut sum: u32 = 0;
    for share in shares {
        sum = sum.checked_add(share.weight)?;
    }
    Some(sum)
}

/// The sum of the weights; 0 or one that doesn't fit 32 bits is `OutOfRange` at `clusters`.
#[tactic(auto, unfolding(crate::specs::Clusters::fit_sum))]
fn fit_sum(alloc: Global, place: &Text, shares: &Items<Share>) -> Result<u32, ReadFail>
    ensures { Gives (λ n. n) result (fit_sum_of place.now shares.now) }
{
    match sum_of(shares.as_slice()) {
        Some(sum) => {
            if sum > 0 {
                return Ok(sum);
            }
        }
        None => {}
    }
    let at = field_place(alloc, place, Message::WeightedCluster, 0)?;
    Err(refused_at(at, Kind::OutOfRange))
}

/// A total that is neither 0 nor the sum is `Conflict` at `total_weight`.
#[tactic(auto, unfolding(crate::specs::Clusters::same_total))]
fn same_total(alloc: Global, place: &Text, total: u32, sum: u32) -> Result<(), ReadFail>
    ensures { Gives (λ u. u) result (same_total_of place.now total sum) }
{
    if total == 0 || total == sum {
        return Ok(());
    }
    let at = field_place(alloc, place, Message::WeightedCluster, 1)?;
    Err(refused_at(at, Kind::Conflict))
}

/// A WeightedCluster: shares whose weights add up to a number of 32 bits other than 0.
#[derive(Drop)]
pub struct WeightedCluster;

impl Reader for WeightedCluster {
    type Out = Items<Share>;

    ghost reads = { λ _. weighted_cluster };

    #[tactic(auto, unfolding(crate::specs::Clusters::weighted_cluster))]
    fn read(&self, alloc: Global, value: &Value, place: &Text) -> Result<Items<Share>, ReadFail> {
        const M: Message = Message::WeightedCluster;
        let list = ListOf {
            most: None,
            element: ClusterWeight,
        };
        let names = members(alloc, value, place, M)?;
        let shares = required(alloc, value, place, &names, M, 0, &list)?;
        let total = optional(alloc, value, place, &names, M, 1, &Weight)?;
        let sum = fit_sum(alloc, place, &shares)?;
        same_total(alloc, place, total.unwrap_or(0), sum)?;
        Ok(shares)
    }
}
