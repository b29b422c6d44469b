// The terms of rules on texts and paths.
ghost use Rattle.std.specs.Prelude.{◌≡◌, IfOk, IfSome};
ghost use Rattle.cfg_types.specs.Lawful.{IsLawfulText, IsLawfulPath, IsLawfulQuery};
ghost use Rattle.rule_form.specs.Terms.{value_term as term_of_value, has_pattern as has_pattern_form, path_term as term_of_path, is_path_pattern as is_pattern_path};

use cfg_types::{PathRule, TextRule};
use rx_build::{
    is_pattern, path_ends, path_exact, path_pattern, path_prefix, path_separated, text_term,
};
use rx_rows::all;
use rx_term::Term;
use std::alloc::Global;
use text_base::OutOfMemory;

/// The values that a query rule takes.
pub(crate) fn value_term(alloc: Global, form: &Option<TextRule>) -> Result<Term, OutOfMemory>
    requires { IfSome form.now IsLawfulText }
    ensures { IfOk result (λ t. t ≡ term_of_value form.now) }
{
    match form {
        None => all(alloc),
        Some(rule) => text_term(alloc, rule),
    }
}

/// Whether a query rule has a pattern. Takes no memory.
pub(crate) fn has_pattern(form: &Option<TextRule>) -> bool
    ensures { result ≡ has_pattern_form form.now }
{
    match form {
        None => false,
        Some(rule) => is_pattern(&rule.form),
    }
}

/// The targets whose path the rule holds on.
pub fn path_term(
    alloc: Global,
    rule: &PathRule,
    fold: bool,
    ignore_params: bool,
) -> Result<Term, OutOfMemory>
    requires { IsLawfulPath rule.now }
    ensures { IfOk result (λ t. t ≡ term_of_path ignore_params fold rule.now) }
{
    let ends = path_ends(ignore_params);
    match rule {
        PathRule::Prefix(value) => path_prefix(alloc, value.as_bytes(), fold, ends),
        PathRule::Exact(value) => path_exact(alloc, value.as_bytes(), fold, ends),
        PathRule::Separated(value) => path_separated(alloc, value.as_bytes(), fold, ends),
        PathRule::Pattern(pattern) => path_pattern(alloc, &pattern.term, ends),
    }
}

/// Whether the rule is a pattern of the configuration. Takes no memory.
pub(crate) fn is_path_pattern(rule: &PathRule) -> bool
    ensures { result ≡ is_pattern_path rule.now }
{
    match rule {
        PathRule::Pattern(_) => true,
        _ => false,
    }
}
