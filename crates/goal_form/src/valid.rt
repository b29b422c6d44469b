// The terms of the valid texts of the fields.
ghost use Rattle.std.specs.Prelude.{◌≡◌, IfOk};
ghost use Rattle.text_base.specs.declared.request.Field.TheVariants as field;
ghost use Rattle.goal_form.specs.Valid.{valid_of, header_term as term_of_headers};

use rx_rows::{
    all, alt, authority_bytes, cat, digits, letter, one_and_more, printed, target_bytes, text_then,
    token_bytes, visible,
};
use rx_term::Term;
use std::alloc::Global;
use text_base::{Field, OutOfMemory};

/// `http`, and then nothing or `s`.
fn proto_term(alloc: Global) -> Result<Term, OutOfMemory>
    ensures { IfOk result (λ t. t ≡ valid_of field.Proto) }
{
    let end = alt(alloc, Term::Empty, Term::One(letter(false, b's')))?;
    text_then(alloc, b"http", false, end)
}

/// Six digits.
fn random_term(alloc: Global) -> Result<Term, OutOfMemory>
    ensures { IfOk result (λ t. t ≡ valid_of field.Random) }
{
    let two = cat(alloc, Term::One(digits()), Term::One(digits()))?;
    let three = cat(alloc, Term::One(digits()), two)?;
    let four = cat(alloc, Term::One(digits()), three)?;
    let five = cat(alloc, Term::One(digits()), four)?;
    cat(alloc, Term::One(digits()), five)
}

/// Nothing, or printed bytes without a space at either end.
fn header_term(alloc: Global) -> Result<Term, OutOfMemory>
    ensures { IfOk result (λ t. t ≡ term_of_headers) }
{
    let any = all(alloc)?;
    let end = cat(alloc, any, Term::One(visible()))?;
    let more = alt(alloc, Term::Empty, end)?;
    let some = cat(alloc, Term::One(visible()), more)?;
    alt(alloc, Term::Empty, some)
}

/// The term of the field's valid texts.
pub fn valid_term(alloc: Global, field: &Field) -> Result<Term, OutOfMemory>
    ensures { IfOk result (λ t. t ≡ valid_of field.now) }
{
    match field {
        Field::Authority => one_and_more(alloc, authority_bytes(), authority_bytes()),
        Field::Target => one_and_more(alloc, letter(false, b'/'), target_bytes()),
        Field::Method => one_and_more(alloc, token_bytes(), token_bytes()),
        Field::Proto => proto_term(alloc),
        Field::Random => random_term(alloc),
        Field::Runtime => one_and_more(alloc, printed(), printed()),
        Field::Internal => text_then(alloc, b"tru", false, Term::One(letter(false, b'e'))),
        Field::Header(_) => header_term(alloc),
    }
}
