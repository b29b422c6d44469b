// Terms of text rules.
ghost use Rattle.std.specs.Prelude.{◌≡◌, IfOk};
ghost use Rattle.cfg_types.specs.Lawful.{IsLawfulText};
ghost use Rattle.rx_build.specs.Rules.{text_term as term_of_text, is_pattern as is_pattern_form, TextRuleLaw};

use crate::texts::{contains, exact, prefix, suffix};
use cfg_types::{TextForm, TextRule};
use rx_term::{OutOfMemory, Term};
use std::alloc::Global;

/// The texts that agree with the rule.
pub fn text_term(alloc: Global, rule: &TextRule) -> Result<Term, OutOfMemory>
    requires { IsLawfulText rule.now }
    ensures { IfOk result (λ t. t ≡ term_of_text rule.now) }
{
    match &rule.form {
        TextForm::Exact(value) => exact(alloc, value.as_bytes(), rule.fold),
        TextForm::Prefix(value) => prefix(alloc, value.as_bytes(), rule.fold),
        TextForm::Suffix(value) => suffix(alloc, value.as_bytes(), rule.fold),
        TextForm::Contains(value) => contains(alloc, value.as_bytes(), rule.fold),
        TextForm::Pattern(pattern) => pattern.term.copy(alloc),
    }
}

/// Whether the form is a pattern of the configuration. Takes no memory.
pub fn is_pattern(form: &TextForm) -> bool
    ensures { result ≡ is_pattern_form form.now }
{
    match form {
        TextForm::Pattern(_) => true,
        _ => false,
    }
}

/// A printed text is in the term of a lawful text rule exactly where it agrees with the rule.
pub fn text_rule_law()
    ensures { TextRuleLaw }
{}
