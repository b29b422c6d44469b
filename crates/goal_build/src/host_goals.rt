// What the goals of a host's routes are made of.
ghost use Rattle.std.specs.Prelude.{◌≡◌, true, map, length};
ghost use Rattle.std.specs.List.{list_all};
ghost use Rattle.goal_build.specs.Parts.{asked};
ghost use Rattle.goal_form.specs.Formulas.{leaves_below};

use goal_form::{Atoms, Formula};
use match_tree::Guard;
use sqlite_items::Items;

/// What the goals of all routes of a host are made of, over one list of atoms: built once for the host, since the terms of
/// its rules and of its rivals are large. A goal copies the atoms that it has and numbers them anew.
#[derive(Drop)]
pub struct HostGoals {
    pub(crate) atoms: Atoms,
    /// That the request is the host's and needn't go to https first.
    pub(crate) shared: Items<Formula>,
    /// What is asked in order.
    pub(crate) guards: Items<Guard>,
    ghost shared_below: { list_all (λ b. b) (map (leaves_below (length atoms)) shared) ≡ true },
    ghost guards_below: { list_all (λ b. b) (map (leaves_below (length atoms)) (asked guards)) ≡ true },
}
