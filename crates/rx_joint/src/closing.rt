//! The check that listed words close.

ghost use Rattle.std.specs.Prelude.{◌≡◌, ◌↔◌, List, IsTrue, IfOk};
ghost use Rattle.rx_term.specs.declared.terms.Term.{Term};
ghost use Rattle.rx_term.specs.Closing.{Claim, AreApart, Closes};
ghost use Rattle.rx_joint.specs.Claims.{IsJoint, AreChosen, chosen, all_claims, claims_of};

use crate::chosen::Chosen;
use crate::joint::Joint;
use crate::lists::Lists;
use crate::literals::Literal;
use crate::replay::{all_lead_back, replay};
use rx_auto::Words;
use rx_term::{OutOfMemory, Term};
use std::alloc::Global;

/// Whether the words close, over chosen tables.
pub fn closed(alloc: Global, chosen: &Chosen<'_>, words: &[(u64, u8)]) -> Result<bool, OutOfMemory>
    ensures { (valid : Term) (claims : List Claim) → IsJoint chosen.now.tables chosen.now.holds chosen.now.bytes (all_claims valid claims)
        → IfOk result (λ yes. IsTrue yes ↔ Closes valid claims words.now) }
{
    let mut states = Lists::new(alloc);
    if replay(alloc, chosen, words, &mut states)? {
        all_lead_back(alloc, chosen, &states)
    } else {
        Ok(false)
    }
}

/// Whether the words have pairwise different states and none meets the claims, over chosen tables.
pub fn apart(alloc: Global, chosen: &Chosen<'_>, words: &[(u64, u8)]) -> Result<bool, OutOfMemory>
    ensures { (valid : Term) (claims : List Claim) → IsJoint chosen.now.tables chosen.now.holds chosen.now.bytes (all_claims valid claims)
        → IfOk result (λ yes. IsTrue yes ↔ AreApart valid claims words.now) }
{
    let mut states = Lists::new(alloc);
    replay(alloc, chosen, words, &mut states)
}

/// The tables of the valid term and of each literal, and the literals as a choice. More than 4,294,967,294 literals
/// are answered as want of memory.
pub fn joint_of(
    alloc: Global,
    valid: &Term,
    literals: &[Literal],
) -> Result<(Joint, Vec<(u32, bool)>), OutOfMemory>
    ensures valid { IfOk result (λ r. r.0.valid ≡ valid.now) }
    ensures chosen { IfOk result (λ r. AreChosen r.0.terms r.1.items) }
    ensures claims { IfOk result (λ r. chosen r.0.terms r.1.items ≡ claims_of literals.now) }
{
    let mut joint = Joint::new(alloc, valid)?;
    let mut choice = Vec::new(alloc);
    for literal in literals {
        choice.push((joint.count(), literal.holds))?;
        joint.add(alloc, &literal.term)?;
    }
    Ok((joint, choice))
}

/// Whether the words close over the valid term and the literals: each parent stands before its word and each byte is
/// 32 to 126, the states of the words are pairwise different, no word is a valid text that meets the literals, and
/// each of the 95 bytes leads from each word to the states of a listed word. The empty word is among them. Where the
/// byte sets of `valid` lie within these bytes, no valid text meets the literals then.
pub fn closes(
    alloc: Global,
    valid: &Term,
    literals: &[Literal],
    words: &Words,
) -> Result<bool, OutOfMemory>
    ensures { IfOk result (λ yes. IsTrue yes ↔ Closes valid.now (claims_of literals.now) words.now.list) }
{
    let (joint, choice) = joint_of(alloc, valid, literals)?;
    joint.closes(alloc, &choice, words)
}

/// The same but for where bytes lead: whether each parent stands before its word and each byte is 32 to 126, the
/// states of the words are pairwise different, and no word is a valid text that meets the literals.
pub fn are_apart(
    alloc: Global,
    valid: &Term,
    literals: &[Literal],
    words: &Words,
) -> Result<bool, OutOfMemory>
    ensures { IfOk result (λ yes. IsTrue yes ↔ AreApart valid.now (claims_of literals.now) words.now.list) }
{
    let (joint, choice) = joint_of(alloc, valid, literals)?;
    joint.are_apart(alloc, &choice, words)
}
