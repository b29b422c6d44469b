// What goals are worth on paths, and their atoms by number.
ghost use Rattle.std.specs.Prelude.{◌≡◌, ◌≤◌, length, IfOk};
ghost use Rattle.cfg_types.specs.Lawful.{IsLawful};

use crate::made::config_of;
use cfg_types::Config;
use goal_build::goal;
use goal_form::{
    Atom, Atoms, Goal, Standing, Trail, Truth, copy_atom, find_standing, has_user,
    is_claimed_absent, is_required, is_well_formed, same_atom, value,
};
use rx_term::Term;
use std::alloc::Global;
use std::test::Fail;
use text_base::{Field, OutOfMemory, Text};

/// The goal of the second route, after a rule that may have its header missing.
const TABLE: &str =
    r#"{"match":{"prefix":"/a"},$to$},{"match":{"path":"/a/x"},$to$},{"match":{"prefix":"/","headers":[{"name":"x","safe_regex_match":{"regex":"1"}},{"name":"y","exact_match":"1","invert_match":true}]},$to$}"#;

/// The goal of a route.
fn goal_in(alloc: Global, config: &Config, route: u32) -> Result<Goal, OutOfMemory>
    requires { IsLawful config.now }
{
    if config.route_count() <= route {
        return Err(OutOfMemory);
    }
    goal(alloc, config, route)
}

/// The goal of this route of the table.
fn goal_of(alloc: Global, route: u32) -> Result<Goal, Fail> {
    let config = config_of(alloc, TABLE)?;
    Ok(goal_in(alloc, &config, route)?)
}

/// Adds the step to the path, unless the atom isn't there or is decided.
fn decide(trail: &mut Trail, count: u32, step: Option<(u32, bool)>) -> Result<(), OutOfMemory>
    requires { trail.old.count ≡ count }
    ensures { trail.new.count ≡ count }
{
    if let Some((atom, holds)) = step {
        if atom < count && trail.truth_of(atom) == Truth::Unknown {
            trail.decide(atom, holds)?;
        }
    }
    Ok(())
}

/// The path of these steps.
fn trail_of(
    alloc: Global,
    count: u32,
    steps: [Option<(u32, bool)>; 2],
) -> Result<Trail, OutOfMemory>
    ensures { IfOk result (λ t. t.count ≡ count) }
{
    let [first, second] = steps;
    let mut trail = Trail::new(alloc, count)?;
    decide(&mut trail, count, first)?;
    decide(&mut trail, count, second)?;
    Ok(trail)
}

/// What a goal is worth on a path, and the first atom that keeps it open, by each of the ways to ask for them; the number is
/// 99 where these differ.
fn worth(goal: &Goal, trail: &Trail) -> (Truth, u32) {
    let known = value(&goal.formula, trail.steps());
    let same = known == trail.value_of(&goal.formula);
    match (known, trail.standing_of(&goal.formula)) {
        (Truth::Yes, Standing::Known(true)) if same => (known, 0),
        (Truth::No, Standing::Known(false)) if same => (known, 0),
        (Truth::Unknown, Standing::Open(atom)) if same => (known, atom),
        _ => (known, 99),
    }
}

/// The same on the path of these steps.
fn worth_on(
    alloc: Global,
    goal: &Goal,
    steps: [Option<(u32, bool)>; 2],
) -> Result<(Truth, u32), OutOfMemory> {
    let trail = trail_of(alloc, goal.atoms.count(), steps)?;
    Ok(worth(goal, &trail))
}

/// The steps of a path, and what the goal is worth there: known, or open by an atom.
type PathRow = ([Option<(u32, bool)>; 2], Truth, u32);

const PATHS: [PathRow; 8] = [
    ([None, None], Truth::Unknown, 0),
    ([Some((0, true)), Some((1, true))], Truth::No, 0),
    ([Some((0, true)), None], Truth::Unknown, 1),
    ([Some((0, true)), Some((1, false))], Truth::Yes, 0),
    ([Some((0, false)), None], Truth::No, 0),
    ([Some((1, true)), None], Truth::No, 0),
    ([Some((1, false)), None], Truth::Unknown, 0),
    ([Some((1, false)), Some((0, true))], Truth::Yes, 0),
];

/// The first atom is the path of the second route, and the second one that of the first route.
#[test]
fn a_goal_is_worth_what_its_path_decides(rt: HostRuntime) -> Result<(), Fail> {
    let goal = goal_of(rt.alloc(), 1)?;
    for (steps, truth, atom) in PATHS {
        let (found, open) = worth_on(rt.alloc(), &goal, steps)?;
        assert!(rt; found == truth);
        assert_eq!(rt; open, atom);
    }
    Ok(())
}

/// The paths that follow one of two true steps: the second turns to false, and then the first.
fn turns(alloc: Global) -> Result<bool, OutOfMemory> {
    let mut trail = trail_of(alloc, 2, [Some((0, true)), Some((1, true))])?;
    let turned = trail.turn()? && trail.steps() == [(0, true), (1, false)].as_slice();
    let again = trail.turn()? && trail.steps() == [(0, false)].as_slice();
    Ok(turned && again && !trail.turn()? && trail.steps().is_empty())
}

/// What the path on which the atom holds, or doesn't, says of the header: that it is there, that it isn't, and that a pattern
/// stands for it.
fn claims(goal: &Goal, atom: u32, holds: bool, header: &Field) -> (bool, bool, bool) {
    let path = [(atom, holds)];
    (
        is_required(goal, &path, header),
        is_claimed_absent(goal, &path, header),
        has_user(goal, &path, header),
    )
}

/// The same of the header of this name.
fn claims_of(
    alloc: Global,
    goal: &Goal,
    atom: u32,
    holds: bool,
    name: &str,
) -> Result<(bool, bool, bool), OutOfMemory> {
    let header = Field::Header(Text::of(alloc, name)?);
    Ok(claims(goal, atom, holds, &header))
}

/// An atom of the third goal, its truth, the header, and what is said of that.
const CLAIMS: [(u32, bool, &str, (bool, bool, bool)); 6] = [
    (1, true, "x", (true, false, true)),
    (1, false, "x", (false, false, true)),
    (2, true, "y", (true, false, false)),
    (2, false, "y", (false, true, false)),
    (3, false, "y", (false, false, false)),
    (1, true, "y", (false, false, false)),
];

/// The third goal's atoms are the target, the pattern for `x`, that `y` is there, and its text, and then those of the earlier
/// routes.
#[test]
fn a_path_claims_what_its_steps_say(rt: HostRuntime) -> Result<(), Fail> {
    let alloc = rt.alloc();
    let goal = goal_of(alloc, 2)?;
    for (atom, holds, name, want) in CLAIMS {
        let found = claims_of(alloc, &goal, atom, holds, name)?;
        assert_eq!(rt; found, want, "{atom} {holds} {name}");
    }
    assert!(rt; is_required(&goal, &[], &Field::Target) && is_well_formed(&goal));
    assert!(rt; turns(alloc)?);
    Ok(())
}

/// Whether the atom is the second one and not the first.
fn is_second(atoms: &Atoms, atom: &Atom) -> bool
    requires { 2 ≤ length atoms.now }
{
    same_atom(atom, atoms.at(1)) && !same_atom(atom, atoms.at(0))
}

/// The number of a copy of the second atom, or 99 where the copy isn't that one.
fn number_of_copy(alloc: Global, atoms: &mut Atoms) -> Result<u32, OutOfMemory> {
    if atoms.count() < 2 {
        return Ok(99);
    }
    let copy = copy_atom(alloc, atoms.at(1))?;
    if !is_second(atoms, &copy) {
        return Ok(99);
    }
    atoms.number(copy)
}

/// The number of an atom that isn't there.
fn number_of_another(atoms: &mut Atoms) -> Result<u32, OutOfMemory> {
    atoms.number(Atom::Within {
        field: Field::Target,
        term: Term::Empty,
        user: true,
    })
}

/// The number of an atom that is there, the count after it, the number of one that isn't there, and the count after it.
fn numbers(alloc: Global, atoms: &mut Atoms) -> Result<[u32; 4], OutOfMemory> {
    let found = number_of_copy(alloc, atoms)?;
    let count = atoms.count();
    let another = number_of_another(atoms)?;
    Ok([found, count, another, atoms.count()])
}

/// An atom that is there keeps its number, and another one comes after the last.
#[test]
fn an_atom_that_is_there_keeps_its_number(rt: HostRuntime) -> Result<(), Fail> {
    let mut goal = goal_of(rt.alloc(), 1)?;
    let standing = find_standing(&goal.formula, &[Truth::Yes]);
    assert!(rt; matches!(standing, Standing::Open(1)));
    assert_eq!(rt; numbers(rt.alloc(), &mut goal.atoms)?, [1, 2, 2, 3]);
    Ok(())
}
