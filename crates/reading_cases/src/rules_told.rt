// The rule of a route as a short text.
use cfg_types::{
    Fraction, HeaderForm, HeaderRule, PathRule, QueryRule, RouteRule, TextForm, TextRule,
};
use std::alloc::Global;
use text_base::OutOfMemory;

fn path_told(alloc: Global, path: &PathRule) -> Result<String, OutOfMemory> {
    let (form, text) = match path {
        PathRule::Prefix(text) => ("prefix", text),
        PathRule::Exact(text) => ("exact", text),
        PathRule::Pattern(pattern) => ("pattern", &pattern.text),
        PathRule::Separated(text) => ("separated", text),
    };
    format!(in alloc; "{form}={}", text.as_str())
}

pub(crate) fn rule_told(alloc: Global, rule: &RouteRule) -> Result<String, OutOfMemory> {
    let path = path_told(alloc, &rule.path)?;
    format!(in alloc;
        "{path} fold={} grpc={} fraction={} headers={} queries={}",
        rule.fold,
        rule.grpc,
        rule.fraction.is_some(),
        rule.headers.len(),
        rule.queries.len()
    )
}

fn text_rule_told(alloc: Global, rule: &TextRule) -> Result<String, OutOfMemory> {
    let (form, text) = match &rule.form {
        TextForm::Exact(text) => ("exact", text),
        TextForm::Prefix(text) => ("prefix", text),
        TextForm::Suffix(text) => ("suffix", text),
        TextForm::Contains(text) => ("contains", text),
        TextForm::Pattern(pattern) => ("pattern", &pattern.text),
    };
    format!(in alloc; "{form}={} fold={}", text.as_str(), rule.fold)
}

pub(crate) fn form_told(alloc: Global, form: &HeaderForm) -> Result<String, OutOfMemory> {
    match form {
        HeaderForm::Value(rule) => text_rule_told(alloc, rule),
        HeaderForm::Range { start, end } => format!(in alloc; "from={start} below={end}"),
        HeaderForm::Present(there) => format!(in alloc; "present={there}"),
    }
}

pub(crate) fn header_told(alloc: Global, rule: &HeaderRule) -> Result<String, OutOfMemory> {
    let form = form_told(alloc, &rule.form)?;
    format!(in alloc;
        "name={} {form} invert={} missing_empty={}",
        rule.name.as_str(),
        rule.invert,
        rule.missing_empty
    )
}

pub(crate) fn query_told(alloc: Global, rule: &QueryRule) -> Result<String, OutOfMemory> {
    format!(in alloc; "name={} form={}", rule.name.as_str(), rule.form.is_some())
}

pub(crate) fn fraction_told(alloc: Global, fraction: &Fraction) -> Result<String, OutOfMemory> {
    format!(in alloc;
        "below={} of={} key={}",
        fraction.below,
        fraction.of,
        fraction.key.as_str()
    )
}
