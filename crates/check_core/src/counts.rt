// How many rows have each verdict.
ghost use Rattle.std.specs.Prelude.{◌≡◌, ◌≤◌, ◌<◌, ◌^◌, ◌∷◌, [], ◌++◌, List, length};
ghost use Rattle.goal_form.specs.declared.goal.Row.{Row};
ghost use Rattle.goal_form.specs.declared.goal.RowBody.TheVariants.{Reached};
ghost use Rattle.check_core.specs.Rows.{AreCounts};

use goal_form::RowBody;

/// How many rows have each verdict.
#[derive(Clone, Copy, Debug, Drop)]
pub struct Counts {
    pub reached: u32,
    pub refuted: u32,
    pub undecided: u32,
}

impl Counts {
    /// The counts of no rows.
    pub fn none() -> Counts
        ensures { AreCounts [] result }
    {
        Counts {
            reached: 0,
            refuted: 0,
            undecided: 0,
        }
    }

    /// The counts with one more row of this body. There are fewer than 2^32 - 1 rows before it.
    pub fn with(self, body: &RowBody) -> Counts
        requires few { (self.reached < 4294967295) × (self.refuted < 4294967295) × (self.undecided < 4294967295) }
        ensures { (rows : List Row) (row : Row) → AreCounts rows self → row.body ≡ body.now → AreCounts (rows ++ row ∷ []) result }
    {
        match body {
            RowBody::Reached(_) => Counts {
                reached: self.reached + 1,
                ..self
            },
            RowBody::Refuted(_) => Counts {
                refuted: self.refuted + 1,
                ..self
            },
            RowBody::Undecided { .. } => Counts {
                undecided: self.undecided + 1,
                ..self
            },
        }
    }
}
