// Verdicts of rows and letters of nodes.
ghost use Rattle.std.specs.Prelude.{◌≡◌};
ghost use Rattle.cert_rows.specs.Nodes.{letter_named as letter_of_text};
ghost use Rattle.cert_rows.specs.Rows.{verdict_named as verdict_of_text};

/// The kind of a node, which its letter names.
#[derive(Clone, Copy)]
pub enum Letter {
    Split,
    False,
    Clash,
    Closed,
    Rest,
    Capped,
}

/// The kind of a row, which its verdict names.
#[derive(Clone, Copy)]
pub enum Verdict {
    Reached,
    Refuted,
    Undecided,
}

#[tactic(auto, unfolding(crate::specs::Nodes::letter_named))]
pub fn letter_named(text: &str) -> Option<Letter>
    ensures { result ≡ letter_of_text text.now }
{
    if text == "s" {
        Some(Letter::Split)
    } else if text == "b" {
        Some(Letter::False)
    } else if text == "c" {
        Some(Letter::Clash)
    } else if text == "e" {
        Some(Letter::Closed)
    } else if text == "o" {
        Some(Letter::Rest)
    } else if text == "q" {
        Some(Letter::Capped)
    } else {
        None
    }
}

#[tactic(auto, unfolding(crate::specs::Rows::verdict_named))]
pub fn verdict_named(text: &str) -> Option<Verdict>
    ensures { result ≡ verdict_of_text text.now }
{
    if text == "reached" {
        Some(Verdict::Reached)
    } else if text == "refuted" {
        Some(Verdict::Refuted)
    } else if text == "undecided" {
        Some(Verdict::Undecided)
    } else {
        None
    }
}
