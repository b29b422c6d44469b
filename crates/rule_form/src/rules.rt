// Formulas of the other rules, and of the rule of a route.
ghost use Rattle.std.specs.Prelude.{◌≡◌, ◌++◌, ◌∷◌, [], map, All, IfSome, IfOk};
ghost use Rattle.cfg_types.specs.Lawful.{IsLawfulHeader, IsLawfulQuery, IsLawfulFraction, IsLawfulPath, IsLawfulRule};
ghost use Rattle.goal_form.specs.Numbers.{Grows};
ghost use Rattle.goal_form.specs.Conditions.{IsMeant};
ghost use Rattle.rule_form.specs.Conditions.{header_condition, query_condition, key_conditions, fraction_condition, fraction_conditions, grpc_condition, grpc_conditions, path_condition, rule_condition};
ghost use Rattle.goal_form.specs.Meant.{AddsMeant};

use crate::headers::header_formula;
use crate::terms::{has_pattern, is_path_pattern, path_term, value_term};
use cfg_types::{Fraction, HeaderRule, PathRule, QueryRule, RouteRule};
use goal_form::{Atoms, Formula, within};
use rx_build::{digits_below, exact, prefix, query_first};
use rx_rows::alt;
use sqlite_items::Items;
use std::alloc::Global;
use text_base::{Field, OutOfMemory, Text};

/// The rule on a query element as a formula.
pub fn query_formula(
    alloc: Global,
    rule: &QueryRule,
    atoms: &mut Atoms,
) -> Result<Formula, OutOfMemory>
    requires { IsLawfulQuery rule.now }
    ensures kept { Grows atoms.old atoms.new }
    ensures meant { IfOk result (λ f. IsMeant atoms.new f (query_condition rule.now)) }
{
    let value = value_term(alloc, &rule.form)?;
    let term = query_first(alloc, rule.name.as_bytes(), &value)?;
    within(alloc, &Field::Target, term, has_pattern(&rule.form), atoms)
}

/// The runtime key, where it isn't empty, at the end of the list.
fn add_key(
    alloc: Global,
    fraction: &Fraction,
    atoms: &mut Atoms,
    list: &mut Items<Formula>,
) -> Result<(), OutOfMemory>
    requires { IsLawfulFraction fraction.now }
    ensures kept { Grows atoms.old atoms.new }
    ensures added { IfOk result (λ u. AddsMeant atoms.new list.old list.new (key_conditions fraction.now.key)) }
{
    let key = fraction.key.as_bytes();
    if key.is_empty() {
        return Ok(());
    }
    let term = exact(alloc, key, false)?;
    list.push(within(alloc, &Field::Runtime, term, false, atoms)?)
}

/// A runtime fraction as a formula.
pub fn fraction_formula(
    alloc: Global,
    fraction: &Fraction,
    atoms: &mut Atoms,
) -> Result<Formula, OutOfMemory>
    requires { IsLawfulFraction fraction.now }
    ensures kept { Grows atoms.old atoms.new }
    ensures meant { IfOk result (λ f. IsMeant atoms.new f (fraction_condition fraction.now)) }
{
    let mut members = Items::new(alloc);
    add_key(alloc, fraction, atoms, &mut members)?;
    let term = digits_below(alloc, fraction.of, fraction.below)?;
    members.push(within(alloc, &Field::Random, term, false, atoms)?)?;
    Ok(Formula::All(members))
}

/// The rule `grpc` as a formula.
pub fn grpc_formula(alloc: Global, atoms: &mut Atoms) -> Result<Formula, OutOfMemory>
    ensures kept { Grows atoms.old atoms.new }
    ensures meant { IfOk result (λ f. IsMeant atoms.new f grpc_condition) }
{
    let field = Field::Header(Text::of(alloc, "content-type")?);
    let whole = exact(alloc, b"application/grpc", false)?;
    let longer = prefix(alloc, b"application/grpc+", false)?;
    let term = alt(alloc, whole, longer)?;
    within(alloc, &field, term, false, atoms)
}

/// A path rule as a formula.
pub fn path_formula(
    alloc: Global,
    rule: &PathRule,
    fold: bool,
    ignore_params: bool,
    atoms: &mut Atoms,
) -> Result<Formula, OutOfMemory>
    requires { IsLawfulPath rule.now }
    ensures kept { Grows atoms.old atoms.new }
    ensures meant { IfOk result (λ f. IsMeant atoms.new f (path_condition ignore_params fold rule.now)) }
{
    let term = path_term(alloc, rule, fold, ignore_params)?;
    within(alloc, &Field::Target, term, is_path_pattern(rule), atoms)
}

/// Header rules in order, at the end of the list.
fn add_headers(
    alloc: Global,
    rules: &[HeaderRule],
    atoms: &mut Atoms,
    list: &mut Items<Formula>,
) -> Result<(), OutOfMemory>
    requires { All IsLawfulHeader rules.now }
    ensures kept { Grows atoms.old atoms.new }
    ensures added { IfOk result (λ u. AddsMeant atoms.new list.old list.new (map header_condition rules.now)) }
{
    for rule in rules {
        list.push(header_formula(alloc, rule, atoms)?)?;
    }
    Ok(())
}

/// Query rules in order, at the end of the list.
fn add_queries(
    alloc: Global,
    rules: &[QueryRule],
    atoms: &mut Atoms,
    list: &mut Items<Formula>,
) -> Result<(), OutOfMemory>
    requires { All IsLawfulQuery rules.now }
    ensures kept { Grows atoms.old atoms.new }
    ensures added { IfOk result (λ u. AddsMeant atoms.new list.old list.new (map query_condition rules.now)) }
{
    for rule in rules {
        list.push(query_formula(alloc, rule, atoms)?)?;
    }
    Ok(())
}

fn add_grpc(
    alloc: Global,
    grpc: bool,
    atoms: &mut Atoms,
    list: &mut Items<Formula>,
) -> Result<(), OutOfMemory>
    ensures kept { Grows atoms.old atoms.new }
    ensures added { IfOk result (λ u. AddsMeant atoms.new list.old list.new (grpc_conditions grpc)) }
{
    if !grpc {
        return Ok(());
    }
    list.push(grpc_formula(alloc, atoms)?)
}

fn add_fraction(
    alloc: Global,
    fraction: &Option<Fraction>,
    atoms: &mut Atoms,
    list: &mut Items<Formula>,
) -> Result<(), OutOfMemory>
    requires { IfSome fraction.now IsLawfulFraction }
    ensures kept { Grows atoms.old atoms.new }
    ensures added { IfOk result (λ u. AddsMeant atoms.new list.old list.new (fraction_conditions fraction.now)) }
{
    match fraction {
        None => Ok(()),
        Some(fraction) => list.push(fraction_formula(alloc, fraction, atoms)?),
    }
}

/// All that a route's rule asks for as a formula.
pub fn rule_formula(
    alloc: Global,
    rule: &RouteRule,
    ignore_params: bool,
    atoms: &mut Atoms,
) -> Result<Formula, OutOfMemory>
    requires { IsLawfulRule rule.now }
    ensures kept { Grows atoms.old atoms.new }
    ensures meant { IfOk result (λ f. IsMeant atoms.new f (rule_condition ignore_params rule.now)) }
{
    let mut members = Items::new(alloc);
    members.push(path_formula(alloc, &rule.path, rule.fold, ignore_params, atoms)?)?;
    add_headers(alloc, rule.headers.as_slice(), atoms, &mut members)?;
    add_queries(alloc, rule.queries.as_slice(), atoms, &mut members)?;
    add_grpc(alloc, rule.grpc, atoms, &mut members)?;
    add_fraction(alloc, &rule.fraction, atoms, &mut members)?;
    Ok(Formula::All(members))
}
