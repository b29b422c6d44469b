// How many routes are covered.
ghost use Rattle.std.specs.Prelude.{◌≡◌, ◌<◌, ℕ, false, count_by, vec_len, slice_index_or, IfOk};
ghost use Rattle.std.specs.List.{list_any};
ghost use Rattle.test_run.specs.Coverage.{is_sent_to, covered_among};

use cfg_types::Choice;
use std::alloc::Global;
use text_base::OutOfMemory;

/// A flag for each route: whether some choice is that route.
fn flags_of(alloc: Global, choices: &[Choice], routes: u32) -> Result<Vec<bool>, OutOfMemory>
    ensures many { IfOk result (λ flags. vec_len flags ≡ routes) }
    ensures sent { IfOk result (λ flags. (r : ℕ) → r < routes → slice_index_or flags.items r false ≡ list_any (is_sent_to r) choices.now) }
{
    let mut flags = vec![in alloc; false; routes as usize]?;
    for choice in choices {
        if let Choice::Chosen { route } = choice {
            let at = *route as usize;
            if at < flags.len() {
                flags[at] = true;
            }
        }
    }
    Ok(flags)
}

fn count_set(flags: &[bool]) -> usize
    ensures { result ≡ count_by (λ flag. flag) flags.now }
{
    flags.iter().filter(|flag| **flag).count()
}

/// How many of the first `routes` routes some choice is, each counted once.
pub fn count_covered(alloc: Global, choices: &[Choice], routes: u32) -> Result<u32, OutOfMemory>
    ensures { IfOk result (λ n. n ≡ covered_among choices.now routes) }
{
    let flags = flags_of(alloc, choices, routes)?;
    Ok(count_set(&flags) as u32)
}
