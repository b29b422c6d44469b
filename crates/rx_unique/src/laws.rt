//! What holds of the answers to a text, the contract of a function that does nothing.

ghost use Rattle.std.specs.Prelude.{◌≡◌, ℕ, List};
ghost use Rattle.rx_parse.specs.Results.{Answer, IsAnswer};

/// A text has one answer by the grammar: one term where it is a pattern of at most 4,000 positions, else one fault.
pub fn one_answer_law()
    ensures { (w : List ℕ) → (a b : Answer) → IsAnswer w a → IsAnswer w b → a ≡ b }
{}
