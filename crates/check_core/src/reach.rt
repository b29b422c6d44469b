// The command `reach`.
ghost use Rattle.std.specs.Prelude.{◌≡◌, ◌≤◌, List, ℕ, IsTrue};
ghost use Rattle.cert_check.specs.LawfulRows.{AreBudgets};
ghost use Rattle.check_core.specs.Outside.{outside, IsKept};
ghost use Rattle.check_core.specs.Run.{AreThere};
ghost use Rattle.check_core.specs.Reach.{Reaches, ReachBegins};
ghost use Rattle.check_core.specs.Calls.{reach_of};
ghost use Rattle.check_core.specs.Words.{reach as reach_command};
ghost use Rattle.check_core.specs.Steps.{EndedEither};

use crate::calls::ReachWords;
use crate::input::{ConfigFile, read_input};
use crate::route_rows::write_rows;
use crate::status::Status;
use outside::{Files, Sink};
use std::alloc::Global;

/// Writes for each route of a configuration a request that is sent to it, or a refutation that any is, or what was left
/// unfinished. Either result is the status of the run.
pub fn reach<F: Files, K: Sink>(
    alloc: Global,
    words: &ReachWords<'_>,
    files: &mut F,
    out: &mut K,
) -> Result<Status, Status>
    requires bounds { AreBudgets words.now.budgets.splits words.now.budgets.states }
    requires admitted { IsTrue ((F.state files.old).admits words.now.config.now) }
    ensures ended { EndedEither (AreThere (reach_command (reach_of words.now))) (Reaches (reach_of words.now)) (ReachBegins (reach_of words.now))
        (outside (F.state files.old) (K.state out.old)) (outside (F.state files.new) (K.state out.new)) result }
    ensures kept { IsKept (outside (F.state files.old) (K.state out.old)) (outside (F.state files.new) (K.state out.new)) }
    ensures names { (name : List ℕ) → (F.state files.new).admits name ≡ (F.state files.old).admits name }
{
    let config = read_input(alloc, &ConfigFile, words.config, files, out)?;
    write_rows(alloc, &config, words.budgets, out)?;
    Ok(Status::Done)
}
