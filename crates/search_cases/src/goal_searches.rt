// What the search finds of goals, and with how many splits.

use crate::goals::{goal_of, pattern_atom};
use goal_form::{Atoms, Formula, Goal, Node, is_well_formed};
use rx_term::ByteSet;
use split_seek::{Finding, analyse};
use sqlite_items::{Boxed, Items};
use std::alloc::Global;
use std::test::Fail;
use text_base::OutOfMemory;

/// What a search has to find, of nodes the number of splits.
#[derive(Clone, Copy, PartialEq)]
enum Wanted {
    Reached,
    Refuted(u32),
    Undecided(u32),
    IllFormed,
}

fn is_split(node: &Node) -> bool {
    matches!(node, Node::Split { .. })
}

fn splits_in(nodes: &[Node]) -> u32 {
    let mut count = 0u32;
    for node in nodes {
        if is_split(node) {
            count = count.saturating_add(1);
        }
    }
    count
}

/// What a finding is.
fn wanted_of(finding: &Finding) -> Wanted {
    match finding {
        Finding::Reached(_) => Wanted::Reached,
        Finding::Refuted(nodes) => Wanted::Refuted(splits_in(nodes.as_slice())),
        Finding::Undecided(nodes) => Wanted::Undecided(splits_in(nodes.as_slice())),
    }
}

/// What is found with so many splits.
fn found(alloc: Global, line: &str, splits: u32) -> Result<Wanted, OutOfMemory> {
    let goal = goal_of(alloc, line)?;
    if !is_well_formed(&goal) {
        return Ok(Wanted::IllFormed);
    }
    let finding = analyse(alloc, &goal, splits, 1000)?;
    Ok(wanted_of(&finding))
}

/// The last of 22 routes: twenty paths with a header that nothing is asked of once their paths are out, and its prefix.
const MANY: &str =
    "exact /q/x | exact /p1, present h | exact /p2, present h | exact /p3, present h | exact /p4, present h \
    | exact /p5, present h | exact /p6, present h | exact /p7, present h | exact /p8, present h | exact /p9, present h \
    | exact /p10, present h | exact /p11, present h | exact /p12, present h | exact /p13, present h \
    | exact /p14, present h | exact /p15, present h | exact /p16, present h | exact /p17, present h \
    | exact /p18, present h | exact /p19, present h | exact /p20, present h | prefix /q";

#[test]
fn goals_are_decided_by_few_splits(rt: HostRuntime) -> Result<(), Fail> {
    let rows = [
        ("exact /a/x | prefix /a", 3, Wanted::Refuted(2)),
        ("exact /a/x | prefix /a", 2, Wanted::Refuted(2)),
        ("exact /a/x | prefix /a", 1, Wanted::Undecided(1)),
        ("exact /a/x | prefix /a", 0, Wanted::Undecided(0)),
        (MANY, 22, Wanted::Refuted(22)),
        (MANY, 21, Wanted::Undecided(21)),
        ("prefix /a", 0, Wanted::Reached),
        ("prefix /a/b | prefix /a, present h", 0, Wanted::Reached),
        ("exact /a, is x 1, is x 2", 9, Wanted::Refuted(3)),
        ("prefix /, present x, not present x", 9, Wanted::Refuted(2)),
        (
            "prefix / | prefix /, present h | prefix /, not present h",
            9,
            Wanted::Refuted(2),
        ),
        (
            "prefix /, is a 1, is b 2, not present d, present e",
            0,
            Wanted::Reached,
        ),
        ("prefix /, present host", 9, Wanted::IllFormed),
    ];
    for (line, splits, wanted) in rows {
        assert!(rt;
            found(rt.alloc(), line, splits)? == wanted,
            "{splits} {line}"
        );
    }
    Ok(())
}

/// `x-a` has an `a` before twelve bytes at its end, and neither an `a` nor a `b` there.
fn wide_goal(alloc: Global) -> Result<Goal, OutOfMemory> {
    let mut atoms = Atoms::new(alloc);
    let own = atoms.number(pattern_atom(alloc, ByteSet(1 << 97))?)?;
    let earlier = atoms.number(pattern_atom(alloc, ByteSet(3 << 97))?)?;
    let mut members = Items::new(alloc);
    members.push(Formula::Leaf(own))?;
    members.push(Formula::Not(Boxed::new(alloc, Formula::Leaf(earlier))?))?;
    Ok(Goal {
        atoms,
        formula: Formula::All(members),
    })
}

/// How many words, but for the empty one, the first node with too many states lists.
fn capped_words(nodes: &[Node]) -> usize {
    for node in nodes {
        if let Node::Capped { words, .. } = node {
            return words.list.len();
        }
    }
    0
}

#[test]
fn a_field_with_too_many_states_is_left(rt: HostRuntime) -> Result<(), Fail> {
    let alloc = rt.alloc();
    let goal = wide_goal(alloc)?;
    assert!(rt; is_well_formed(&goal));
    let Finding::Undecided(nodes) = analyse(alloc, &goal, 64, 16)? else {
        return Err(Fail::new("decided"));
    };
    assert_eq!(rt; capped_words(nodes.as_slice()), 16);
    Ok(())
}
