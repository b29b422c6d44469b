// Formulas of header rules.
ghost use Rattle.std.specs.Prelude.{◌≡◌, [], ◌∷◌, true, false, IfOk};
ghost use Rattle.goal_form.specs.declared.sight.Condition as of;
ghost use Rattle.cfg_types.specs.Lawful.{IsLawfulHeader, IsLawfulValue};
ghost use Rattle.goal_form.specs.Numbers.{Grows};
ghost use Rattle.goal_form.specs.Conditions.{IsMeant};
ghost use Rattle.rule_form.specs.Conditions.{or_absent as or_absent_condition, value_condition, presence_condition, form_condition, header_condition, yes_or_no as known};
ghost use Rattle.goal_form.specs.Leaves.{present as is_present};

use cfg_types::{HeaderForm, HeaderRule};
use goal_form::{Atoms, Formula, all_of, any_of, negated, present, within};
use rx_build::{has_empty, is_pattern, range, text_term};
use rx_term::Term;
use std::alloc::Global;
use text_base::{Field, OutOfMemory};

/// The field is absent, and the empty text counts.
fn absent(
    alloc: Global,
    field: &Field,
    empty: bool,
    atoms: &mut Atoms,
) -> Result<Formula, OutOfMemory>
    ensures kept { Grows atoms.old atoms.new }
    ensures meant { IfOk result (λ f. IsMeant atoms.new f (of.All (of.Not (is_present field.now) ∷ known empty ∷ []))) }
{
    let there = present(alloc, field, atoms)?;
    let none = negated(alloc, there)?;
    let counts = if empty { Formula::Yes } else { Formula::No };
    all_of(alloc, none, counts)
}

/// The field is there with a text in the term, or absent where the empty text is in it.
fn or_absent(
    alloc: Global,
    field: &Field,
    term: Term,
    user: bool,
    atoms: &mut Atoms,
) -> Result<Formula, OutOfMemory>
    ensures kept { Grows atoms.old atoms.new }
    ensures meant { IfOk result (λ f. IsMeant atoms.new f (or_absent_condition field.now term user)) }
{
    let empty = has_empty(&term);
    let found = within(alloc, field, term, user, atoms)?;
    let none = absent(alloc, field, empty, atoms)?;
    Ok(any_of(alloc, found, none)?)
}

/// The field is there with a text that isn't in the term.
fn there_without(
    alloc: Global,
    field: &Field,
    term: Term,
    user: bool,
    atoms: &mut Atoms,
) -> Result<Formula, OutOfMemory>
    ensures kept { Grows atoms.old atoms.new }
    ensures meant { IfOk result (λ f. IsMeant atoms.new f (value_condition field.now term user true false)) }
{
    let there = present(alloc, field, atoms)?;
    let found = within(alloc, field, term, user, atoms)?;
    let other = negated(alloc, found)?;
    Ok(all_of(alloc, there, other)?)
}

/// The field is there, or isn't.
fn presence(
    alloc: Global,
    field: &Field,
    there: bool,
    atoms: &mut Atoms,
) -> Result<Formula, OutOfMemory>
    ensures kept { Grows atoms.old atoms.new }
    ensures meant { IfOk result (λ f. IsMeant atoms.new f (presence_condition field.now there)) }
{
    let found = present(alloc, field, atoms)?;
    if there {
        Ok(found)
    } else {
        negated(alloc, found)
    }
}

/// A value form by its term.
fn value_formula(
    alloc: Global,
    field: &Field,
    term: Term,
    user: bool,
    invert: bool,
    missing_empty: bool,
    atoms: &mut Atoms,
) -> Result<Formula, OutOfMemory>
    ensures kept { Grows atoms.old atoms.new }
    ensures meant { IfOk result (λ f. IsMeant atoms.new f (value_condition field.now term user invert missing_empty)) }
{
    match (invert, missing_empty) {
        (false, false) => within(alloc, field, term, user, atoms),
        (false, true) => or_absent(alloc, field, term, user, atoms),
        (true, false) => there_without(alloc, field, term, user, atoms),
        (true, true) => {
            let found = or_absent(alloc, field, term, user, atoms)?;
            negated(alloc, found)
        }
    }
}

fn form_formula(
    alloc: Global,
    field: &Field,
    form: &HeaderForm,
    invert: bool,
    missing_empty: bool,
    atoms: &mut Atoms,
) -> Result<Formula, OutOfMemory>
    requires { IsLawfulValue form.now }
    ensures kept { Grows atoms.old atoms.new }
    ensures meant { IfOk result (λ f. IsMeant atoms.new f (form_condition field.now form.now invert missing_empty)) }
{
    match form {
        HeaderForm::Value(rule) => {
            let term = text_term(alloc, rule)?;
            let user = is_pattern(&rule.form);
            value_formula(alloc, field, term, user, invert, missing_empty, atoms)
        }
        HeaderForm::Range { start, end } => {
            let term = range(alloc, *start, *end)?;
            value_formula(alloc, field, term, false, invert, missing_empty, atoms)
        }
        HeaderForm::Present(there) => presence(alloc, field, *there != invert, atoms),
    }
}

/// The rule as a formula over the atoms, of which more may come at the end, after want of memory too.
pub fn header_formula(
    alloc: Global,
    rule: &HeaderRule,
    atoms: &mut Atoms,
) -> Result<Formula, OutOfMemory>
    requires { IsLawfulHeader rule.now }
    ensures kept { Grows atoms.old atoms.new }
    ensures meant { IfOk result (λ f. IsMeant atoms.new f (header_condition rule.now)) }
{
    let field = Field::of_header(rule.name.copy(alloc)?);
    form_formula(
        alloc,
        &field,
        &rule.form,
        rule.invert,
        rule.missing_empty,
        atoms,
    )
}
