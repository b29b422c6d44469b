//! What holds of the computed answer, as the contract of a function that does nothing.

ghost use Rattle.std.specs.Prelude.{ℕ, List};
ghost use Rattle.rx_parse.specs.Answer.{answer};
ghost use Rattle.rx_parse.specs.Results.{IsAnswer};

/// The computed answer on a text is what the grammar says of it.
pub fn answer_law()
    ensures { (w : List ℕ) → IsAnswer w (answer w) }
{}
