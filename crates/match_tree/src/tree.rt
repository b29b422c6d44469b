// Matchers.
ghost use Rattle.std.specs.Prelude.{◌≡◌, ◌≤◌, ◌<◌, Some, length, map, slice_get};
ghost use Rattle.match_tree.specs.Outcomes.{matcher_outcome, step_outcome, lent};
ghost use Rattle.match_tree.specs.Rooms.{matcher_room, step_room, steps_room};

use crate::Input;
use crate::selector::Selector;
use req_model::Request;
use sqlite_items::{Boxed, Items};
use text_match::Scratch;

/// What a walk leads to.
pub enum Outcome<X> {
    Act(X),
    Unmatched,
}

/// A matcher tree, made ready: what its entries are taken by, where each leads, and what is left if none is taken.
#[cycle(matcher)]
#[derive(Drop)]
pub struct Matcher<I, A> {
    pub(crate) selector: Selector<I>,
    pub(crate) steps: Items<Step<I, A>>,
    pub(crate) otherwise: Option<Step<I, A>>,
}

/// Where an entry leads.
#[cycle(matcher)]
#[derive(Drop)]
pub enum Step<I, A> {
    Inner(Boxed<Matcher<I, A>>),
    Act(A),
}

impl<I, A> Matcher<I, A> {
    /// The room that a walk needs. Takes no memory.
    #[cycle(room)]
    pub fn room(&self) -> u32
        ensures { result ≡ matcher_room self.now }
    {
        let mut room = self.selector.room();
        for step in self.steps.as_slice() {
            room = room.max(step.room());
        }
        match &self.otherwise {
            None => room,
            Some(step) => room.max(step.room()),
        }
    }
}

impl<I, A> Step<I, A> {
    #[cycle(room)]
    fn room(&self) -> u32
        ensures { result ≡ step_room self.now }
    {
        match self {
            Step::Inner(matcher) => matcher.get().room(),
            Step::Act(_) => 0,
        }
    }
}

impl<I: Input, A> Matcher<I, A> {
    /// The action that the request leads to, lent out of the tree. What is taken decides: an inner matcher without an
    /// outcome leaves this one without any. Takes no memory.
    #[cycle(walk)]
    #[tactic(auto, using(crate::proofs::Least::selector_fits, crate::proofs::Least::steps_fit, crate::proofs::Least::left_fits))]
    pub fn walk(&self, request: &Request, scratch: &mut Scratch) -> Outcome<&A>
        requires { matcher_room self.now ≤ scratch.old }
        ensures outcome { lent result ≡ matcher_outcome I.sees request.now self.now }
        ensures room { scratch.new ≡ scratch.old }
    {
        let place = self.selector.place(request, scratch);
        let steps = self.steps.as_slice();
        if place < steps.len() {
            return walk_at(steps, place, request, scratch);
        }
        match &self.otherwise {
            Some(step) => step.walk(request, scratch),
            None => Outcome::Unmatched,
        }
    }
}

#[cycle(walk)]
fn walk_at<'a, I: Input, A>(
    steps: &'a [Step<I, A>],
    place: usize,
    request: &Request,
    scratch: &mut Scratch,
) -> Outcome<&'a A>
    requires within { place < length steps.now }
    requires room { steps_room steps.now ≤ scratch.old }
    ensures outcome { Some (lent result) ≡ slice_get (map (step_outcome I.sees request.now) steps.now) place }
    ensures room { scratch.new ≡ scratch.old }
{
    steps[place].walk(request, scratch)
}

impl<I: Input, A> Step<I, A> {
    #[cycle(walk)]
    fn walk(&self, request: &Request, scratch: &mut Scratch) -> Outcome<&A>
        requires { step_room self.now ≤ scratch.old }
        ensures outcome { lent result ≡ step_outcome I.sees request.now self.now }
        ensures room { scratch.new ≡ scratch.old }
    {
        match self {
            Step::Inner(matcher) => matcher.get().walk(request, scratch),
            Step::Act(action) => Outcome::Act(action),
        }
    }
}
