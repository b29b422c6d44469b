// Places: JSON pointers, in which `~` is `~0` and `/` is `~1`.
ghost use Rattle.std.specs.Prelude.{◌≡◌, ◌++◌, IfOk, OnOk, string_bytes};
ghost use Rattle.std.specs.Char.{encode_utf8};
ghost use Rattle.json_walk.specs.Places.{escape, under as place_under, at_index as place_at};

use std::alloc::{AllocError, Global};
use text_base::Text;

#[tactic(auto, using(crate::proofs::Escape::escape_plain, crate::proofs::Escape::escape_tilde, crate::proofs::Escape::escape_slash))]
fn push_escaped(text: &mut String, c: char) -> Result<(), AllocError>
    ensures { OnOk result (string_bytes text.new ≡ string_bytes text.old ++ escape (encode_utf8 c)) }
{
    if c == '~' {
        return text.push_str("~0");
    }
    if c == '/' {
        return text.push_str("~1");
    }
    text.push(c)
}

/// The place of the member with this name of the object at `place`.
pub fn under(alloc: Global, place: &Text, name: &str) -> Result<Text, AllocError>
    ensures { IfOk result (λ t. t ≡ place_under place.now name.now) }
{
    let mut text = String::from_str(alloc, place.as_str())?;
    text.push('/')?;
    for c in name.chars() {
        push_escaped(&mut text, c)?;
    }
    Text::of(alloc, text.as_str())
}

/// The place of the element with this index of the list at `place`.
pub fn at_index(alloc: Global, place: &Text, index: usize) -> Result<Text, AllocError>
    ensures { IfOk result (λ t. t ≡ place_at place.now index) }
{
    let text = format!(in alloc; "{}/{}", place.as_str(), index)?;
    Text::of(alloc, text.as_str())
}
