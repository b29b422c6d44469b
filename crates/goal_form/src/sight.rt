// Tests of requests that are formulas too.
ghost use Rattle.std.specs.Prelude.{◌≡◌, ◌≤◌, ℕ, Bool, true, IfOk};
ghost use Rattle.text_base.specs.Asked.{Asked};
ghost use Rattle.text_base.specs.Requests.{is_valid};
ghost use Rattle.text_base.specs.Seen.{seen};
ghost use Rattle.goal_form.specs.declared.sight.Condition.{Condition};
ghost use Rattle.goal_form.specs.Conditions.{IsMeant, condition_at};
ghost use Rattle.goal_form.specs.Numbers.{Grows};

use crate::atom::Atom;
use crate::atoms::Atoms;
use crate::formula::Formula;
use req_model::Request;
use rx_auto::Scratch;
use sqlite_items::{Boxed, Items};
use std::alloc::Global;
use text_base::OutOfMemory;

/// A formula with its atoms in place of their numbers, in which definitions say what a test means.
#[derive(Drop)]
pub enum Condition {
    Yes,
    No,
    Leaf(Atom),
    All(Items<Condition>),
    Any(Items<Condition>),
    Not(Boxed<Condition>),
}

/// A test of requests that can be asked of a request, and told as a formula over atoms. It means the room that it needs,
/// what it answers of each request, and one condition. Where the rule that it was made from is lawful, the condition is true
/// at a valid request exactly where the answer is.
pub trait Sight {
    ghost needs: { Self → ℕ };

    ghost lawful: { Self → Type 0 };

    ghost sees: { Self → Asked → Bool };

    ghost means: { Self → Condition };

    /// The room that the test needs. Takes no memory.
    fn room(&self) -> u32
        ensures { result ≡ needs self.now };

    /// Whether the test holds on the request. Takes no memory.
    fn holds(&self, request: &Request, scratch: &mut Scratch) -> bool
        requires { needs self.now ≤ scratch.old }
        ensures answer { result ≡ sees self.now request.now }
        ensures room { scratch.new ≡ scratch.old };

    /// The test as a formula over the atoms, of which more may come at the end, after want of memory too.
    fn formula(&self, alloc: Global, atoms: &mut Atoms) -> Result<Formula, OutOfMemory>
        requires { lawful self.now }
        ensures kept { Grows atoms.old atoms.new }
        ensures meant { IfOk result (λ f. IsMeant atoms.new f (means self.now)) };

    ghost law: { (s : Self) (q : Asked) → lawful s → is_valid q ≡ true → condition_at (seen q) (means s) ≡ sees s q };
}
