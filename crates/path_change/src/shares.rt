// The share of a weighted target that a random value picks.
ghost use Rattle.std.specs.Prelude.{◌≡◌, ◌<◌, ◌≤◌, Some, length, IfSome};
ghost use Rattle.cfg_types.specs.Shares.{weight_of, picked_share};

use cfg_types::Share;

/// The sum of the weights, of which there are fewer than 2^64.
fn total_weight(shares: &[Share]) -> u128
    ensures { result ≡ weight_of shares.now }
{
    let mut total = 0;
    for share in shares {
        total += u128::from(share.weight);
    }
    total
}

/// The index of the share that the random value picks; none where the weights add up to 0. Takes no memory.
pub fn share_at(shares: &[Share], random: u64) -> Option<usize>
    ensures picked { result ≡ picked_share shares.now random }
    ensures within { IfSome result (λ at. at < length shares.now) }
{
    let total = total_weight(shares);
    if total == 0 {
        return None;
    }
    let value = u128::from(random) % total;
    let mut through = 0;
    for (at, share) in shares.iter().enumerate() {
        through += u128::from(share.weight);
        if value < through {
            return Some(at);
        }
    }
    None
}

/// The index of the share that the random value picks: with v that value modulo the sum of the weights, the first one
/// with which the weights add up to more than v. The weights add up to 1 to 4,294,967,295. Takes no memory.
pub fn pick_share(shares: &[Share], random: u64) -> usize
    requires some { 0 < weight_of shares.now }
    requires fit { weight_of shares.now ≤ 4294967295 }
    ensures picked { picked_share shares.now random ≡ Some result }
    ensures within { result < length shares.now }
{
    match share_at(shares, random) {
        Some(at) => at,
        None => unreachable!(),
    }
}
