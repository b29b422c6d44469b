// Atoms decided so far, with a mark for each atom.
ghost use Rattle.std.specs.Prelude.{◌≡◌, ◌<◌, ◌++◌, ◌∷◌, [], length, IfOk, IfSome, IfNone, OnOk, OnErr};
ghost use Rattle.goal_form.specs.declared.formula.Truth.TheVariants as truth;
ghost use Rattle.goal_form.specs.Formulas.{decided, leaf_on, standing_on, value_on, value_of};
ghost use Rattle.goal_form.specs.Trails.{AreFresh, InRange};
ghost use Rattle.goal_form.specs.Waiting.{waiting, pending};

use crate::formula::{Formula, Standing, Truth, find_standing};
use std::alloc::Global;
use std::marker::Model;
use text_base::OutOfMemory;

/// The steps of a path, and the mark of each atom beside it, so that an atom's truth is found at once.
#[derive(Drop)]
pub struct Trail {
    path: Vec<(u32, bool)>,
    marks: Vec<Truth>,
}

impl Model for Trail {
    ghost use Rattle.std.specs.Prelude.{length};
    ghost use Rattle.goal_form.specs.Trails.{TrailMeaning, IsTrail};

    ghost Value = { TrailMeaning };

    ghost view = { λ t. record { path = t.path.items; count = length t.marks.items } };

    ghost invariant = { λ t. IsTrail t.path.items t.marks.items };
}

fn worth(standing: Standing) -> Truth
    ensures { result ≡ value_of standing }
{
    match standing {
        Standing::Known(true) => Truth::Yes,
        Standing::Known(false) => Truth::No,
        Standing::Open(_) => Truth::Unknown,
    }
}

fn mark_of(holds: bool) -> Truth
    ensures { result ≡ decided holds }
{
    if holds { Truth::Yes } else { Truth::No }
}

impl Trail {
    /// The empty path over so many atoms.
    pub fn new(alloc: Global, count: u32) -> Result<Trail, OutOfMemory>
        ensures path { IfOk result (λ t. t.path ≡ []) }
        ensures count { IfOk result (λ t. t.count ≡ count) }
    {
        Ok(Trail {
            path: Vec::new(alloc),
            marks: vec![in alloc; Truth::Unknown; count as usize]?,
        })
    }

    /// The steps in order. Takes no memory.
    pub fn steps(&self) -> &[(u32, bool)]
        ensures steps { result.now ≡ self.now.path }
        ensures fresh { AreFresh [] self.now.path }
        ensures below { InRange self.now.count self.now.path }
    {
        self.path.as_slice()
    }

    /// What the path says of an atom. Takes no memory.
    pub fn truth_of(&self, atom: u32) -> Truth
        ensures { result ≡ leaf_on self.now.path atom }
    {
        match self.marks.get(atom as usize) {
            Some(truth) => *truth,
            None => Truth::Unknown,
        }
    }

    /// What a formula is worth on the path, or the first atom that keeps it open. Takes no memory.
    pub fn standing_of(&self, formula: &Formula) -> Standing
        ensures { result ≡ standing_on self.now.path formula.now }
    {
        find_standing(formula, self.marks.as_slice())
    }

    /// What a formula is worth on the path. Takes no memory.
    pub fn value_of(&self, formula: &Formula) -> Truth
        ensures { result ≡ value_on self.now.path formula.now }
    {
        worth(self.standing_of(formula))
    }

    /// Decides one more atom. After want of memory the path is as before.
    pub fn decide(&mut self, atom: u32, holds: bool) -> Result<(), OutOfMemory>
        requires known { atom < self.old.count }
        requires undecided { leaf_on self.old.path atom ≡ truth.Unknown }
        ensures path { OnOk result (self.new.path ≡ self.old.path ++ (atom, holds) ∷ []) }
        ensures count { self.new.count ≡ self.old.count }
        ensures kept { OnErr result (self.new.path ≡ self.old.path) }
    {
        let mark = mark_of(holds);
        self.path.push((atom, holds))?;
        self.marks[atom as usize] = mark;
        Ok(())
    }

    /// Takes the last step away.
    fn undo(&mut self) -> Option<(u32, bool)>
        ensures none { IfNone result ((self.old.path ≡ []) × (self.new.path ≡ [])) }
        ensures path { IfSome result (λ s. self.old.path ≡ self.new.path ++ s ∷ []) }
        ensures undecided { IfSome result (λ s. leaf_on self.new.path s.0 ≡ truth.Unknown) }
        ensures known { IfSome result (λ s. s.0 < self.new.count) }
        ensures count { self.new.count ≡ self.old.count }
    {
        let (atom, holds) = self.path.pop()?;
        self.marks[atom as usize] = Truth::Unknown;
        Some((atom, holds))
    }

    /// Goes to the next branch that waits, if there is one: the last true step becomes false.
    pub fn turn(&mut self) -> Result<bool, OutOfMemory>
        ensures waits { IfOk result (λ more. waiting more self.new.path ≡ pending self.old.path) }
        ensures count { self.new.count ≡ self.old.count }
    {
        while let Some((atom, holds)) = self.undo() {
            if holds {
                self.decide(atom, false)?;
                return Ok(true);
            }
        }
        Ok(false)
    }
}
