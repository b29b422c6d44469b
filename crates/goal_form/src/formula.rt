// Formulas over numbered atoms, and what they are worth where some atoms are decided.
ghost use Rattle.std.specs.Prelude.{◌≡◌, map, not};
ghost use Rattle.goal_form.specs.Formulas.{leaf_on, not3, all3, any3, value_on, leaf_standing, joined_standing, not_standing, standing_by, mark_on};

use sqlite_items::{Boxed, Items};

/// A condition over atoms, which are known by their numbers.
#[derive(Drop)]
pub enum Formula {
    Yes,
    No,
    Leaf(u32),
    All(Items<Formula>),
    Any(Items<Formula>),
    Not(Boxed<Formula>),
}

/// What a formula is worth where only some atoms are decided.
#[derive(Clone, Copy, PartialEq, Eq)]
pub enum Truth {
    Yes,
    No,
    Unknown,
}

/// A known truth, or the atom of the first leaf that keeps it open.
#[derive(Clone, Copy)]
pub enum Standing {
    Known(bool),
    Open(u32),
}

/// The truth of an atom on a path.
fn leaf_value(atom: u32, path: &[(u32, bool)]) -> Truth
    ensures { result ≡ leaf_on path.now atom }
{
    for step in path {
        if step.0 == atom {
            return if step.1 { Truth::Yes } else { Truth::No };
        }
    }
    Truth::Unknown
}

fn negation(truth: Truth) -> Truth
    ensures { result ≡ not3 truth }
{
    match truth {
        Truth::Yes => Truth::No,
        Truth::No => Truth::Yes,
        Truth::Unknown => Truth::Unknown,
    }
}

/// What a formula is worth where only the atoms on the path are decided. Takes no memory.
#[cycle(value)]
pub fn value(formula: &Formula, path: &[(u32, bool)]) -> Truth
    ensures { result ≡ value_on path.now formula.now }
{
    match formula {
        Formula::Yes => Truth::Yes,
        Formula::No => Truth::No,
        Formula::Leaf(atom) => leaf_value(*atom, path),
        Formula::All(members) => all_value(members.as_slice(), path),
        Formula::Any(members) => any_value(members.as_slice(), path),
        Formula::Not(member) => negation(value(member.get(), path)),
    }
}

#[cycle(value)]
fn all_value(members: &[Formula], path: &[(u32, bool)]) -> Truth
    ensures { result ≡ all3 (map (value_on path.now) members.now) }
{
    let mut all = Truth::Yes;
    for member in members {
        match value(member, path) {
            Truth::No => return Truth::No,
            Truth::Unknown => all = Truth::Unknown,
            Truth::Yes => {}
        }
    }
    all
}

#[cycle(value)]
fn any_value(members: &[Formula], path: &[(u32, bool)]) -> Truth
    ensures { result ≡ any3 (map (value_on path.now) members.now) }
{
    let mut any = Truth::No;
    for member in members {
        match value(member, path) {
            Truth::Yes => return Truth::Yes,
            Truth::Unknown => any = Truth::Unknown,
            Truth::No => {}
        }
    }
    any
}

/// What the mark of an atom says. An atom without a mark is open.
fn mark_standing(atom: u32, marks: &[Truth]) -> Standing
    ensures { result ≡ leaf_standing (mark_on marks.now atom) atom }
{
    match marks.get(atom as usize) {
        Some(Truth::Yes) => Standing::Known(true),
        Some(Truth::No) => Standing::Known(false),
        _ => Standing::Open(atom),
    }
}

fn turned(standing: Standing) -> Standing
    ensures { result ≡ not_standing standing }
{
    match standing {
        Standing::Known(truth) => Standing::Known(!truth),
        Standing::Open(atom) => Standing::Open(atom),
    }
}

/// What a formula is worth where the atoms have these marks, or the first atom that keeps it open. Takes no memory.
#[cycle(standing)]
pub fn find_standing(formula: &Formula, marks: &[Truth]) -> Standing
    ensures { result ≡ standing_by (mark_on marks.now) formula.now }
{
    match formula {
        Formula::Yes => Standing::Known(true),
        Formula::No => Standing::Known(false),
        Formula::Leaf(atom) => mark_standing(*atom, marks),
        Formula::All(members) => list_standing(members.as_slice(), marks, false),
        Formula::Any(members) => list_standing(members.as_slice(), marks, true),
        Formula::Not(member) => turned(find_standing(member.get(), marks)),
    }
}

/// Of a list of which one member that is `decider` decides the whole.
#[cycle(standing)]
fn list_standing(members: &[Formula], marks: &[Truth], decider: bool) -> Standing
    ensures { result ≡ joined_standing decider (map (standing_by (mark_on marks.now)) members.now) }
{
    let mut first = Standing::Known(!decider);
    for member in members {
        let next = find_standing(member, marks);
        if let Standing::Known(truth) = next {
            if truth == decider {
                return Standing::Known(decider);
            }
        } else if let Standing::Known(_) = first {
            first = next;
        }
    }
    first
}
