// The line of a refusal.
ghost use Rattle.std.specs.Prelude.{◌≡◌, IfOk};
ghost use Rattle.serde_json.specs.View.{view};
ghost use Rattle.outside.specs.Written.{Wrote};
ghost use Rattle.check_core.specs.Refusals.{kind_name as name_of, offset_of as offset_of_kind, refusal_value as value_of_refusal, refusal_line};

use json_walk::{Kind, Refusal};
use outside::{Sink, WriteFail, write_whole};
use serde_json::{Value, json};
use std::alloc::Global;
use test_run::line_of;
use text_base::OutOfMemory;

fn kind_name(kind: Kind) -> &'static str
    ensures { result.now ≡ name_of kind }
{
    match kind {
        Kind::Syntax => "Syntax",
        Kind::UnknownField => "UnknownField",
        Kind::WrongKind => "WrongKind",
        Kind::Missing => "Missing",
        Kind::Conflict => "Conflict",
        Kind::OutOfRange => "OutOfRange",
        Kind::Duplicate => "Duplicate",
        Kind::TooMany => "TooMany",
        Kind::TooDeep => "TooDeep",
        Kind::BadText => "BadText",
        Kind::BadRegex { at: _ } => "BadRegex",
        Kind::NotInProfile => "NotInProfile",
    }
}

fn offset_of(kind: Kind) -> Option<u32>
    ensures { result ≡ offset_of_kind kind }
{
    match kind {
        Kind::BadRegex { at } => Some(at),
        _ => None,
    }
}

fn refusal_value(alloc: Global, word: &str, refusal: &Refusal) -> Result<Value, OutOfMemory>
    ensures { IfOk result (λ v. view v ≡ value_of_refusal word.now refusal.now) }
{
    let kind = kind_name(refusal.kind);
    let place = refusal.place.as_str();
    match offset_of(refusal.kind) {
        Some(at) => { json!(in alloc; {"at": at, "kind": kind, "place": place, "refused": word}) }
        None => json!(in alloc; {"kind": kind, "place": place, "refused": word}),
    }
}

/// Writes the line that a file of this word is refused with.
#[tactic(auto, unfolding(crate::specs::Refusals::refusal_line))]
pub fn write_refusal<K: Sink>(
    alloc: Global,
    word: &str,
    refusal: &Refusal,
    out: &mut K,
) -> Result<(), WriteFail>
    ensures { Wrote (K.state out.old) (K.state out.new) (refusal_line word.now refusal.now) result }
{
    let value = refusal_value(alloc, word, refusal)?;
    let line = line_of(alloc, &value)?;
    write_whole(out, &line)
}
