// A text that was found for a field, with what is known of it.
ghost use Rattle.std.specs.Prelude.{◌≡◌, ◌≤◌, ◌<◌, ◌↔◌, length, IsTrue, IfOk};
ghost use Rattle.rx_term.specs.Language.{In};
ghost use Rattle.rx_term.specs.Closing.{Meets};
ghost use Rattle.rx_auto.specs.Node.{term_at};
ghost use Rattle.rx_joint.specs.Claims.{AreChosen, chosen};
ghost use Rattle.split_seek.specs.Known.{IsKnown};

use goal_form::copy_field;
use goal_tables::Joint;
use rx_auto::Scratch;
use sqlite_items::Items;
use std::alloc::Global;
use text_base::{Field, OutOfMemory};

/// A text of a field, and for each term of the field, by its number, whether the text is in it, where that is known.
#[derive(Drop)]
pub struct Kept {
    pub field: Field,
    pub text: Items<u8>,
    pub known: Vec<Option<bool>>,
}

impl Kept {
    /// A text of the field whose tables these are. Nothing is known of it yet.
    pub fn new(
        alloc: Global,
        field: &Field,
        joint: &Joint,
        text: &[u8],
    ) -> Result<Kept, OutOfMemory>
        ensures field { IfOk result (λ kept. kept.field ≡ field.now) }
        ensures text { IfOk result (λ kept. kept.text ≡ text.now) }
        ensures known { IfOk result (λ kept. IsKnown joint.now.terms kept.text kept.known.items) }
    {
        Ok(Kept {
            field: copy_field(alloc, field)?,
            text: Items::from_slice(alloc, text)?,
            known: vec![in alloc; None; joint.count() as usize]?,
        })
    }
}

/// Whether the text is in the term of a number: as is known, or by a test, whose answer is known from then on.
fn is_in(
    joint: &Joint,
    number: u32,
    text: &[u8],
    known: &mut Vec<Option<bool>>,
    scratch: &mut Scratch,
) -> bool
    requires number { number < length joint.now.terms }
    requires room { joint.now.room ≤ scratch.old }
    requires known { IsKnown joint.now.terms text.now known.old.items }
    ensures room { scratch.new ≡ scratch.old }
    ensures known { IsKnown joint.now.terms text.now known.new.items }
    ensures is_in { IsTrue result ↔ In text.now (term_at joint.now.terms number) }
{
    let place = number as usize;
    if let Some(yes) = known[place] {
        return yes;
    }
    let yes = joint.has(number, text, scratch);
    known[place] = Some(yes);
    yes
}

/// Whether a valid text is in each chosen term exactly where the choice says so.
pub fn meets(
    joint: &Joint,
    choice: &[(u32, bool)],
    text: &[u8],
    known: &mut Vec<Option<bool>>,
    scratch: &mut Scratch,
) -> bool
    requires choice { AreChosen joint.now.terms choice.now }
    requires valid { In text.now joint.now.valid }
    requires room { joint.now.room ≤ scratch.old }
    requires known { IsKnown joint.now.terms text.now known.old.items }
    ensures room { scratch.new ≡ scratch.old }
    ensures known { IsKnown joint.now.terms text.now known.new.items }
    ensures meets { IsTrue result → Meets joint.now.valid (chosen joint.now.terms choice.now) text.now }
{
    for claim in choice {
        let (number, holds) = *claim;
        if is_in(joint, number, text, known, scratch) != holds {
            return false;
        }
    }
    true
}
