//! What holds of terms, words and patterns, each law the contract of a function that does nothing.

ghost use Rattle.std.specs.Prelude.{◌≡◌, ℕ, ◌≤◌, ◌^◌, Bool, List, length};
ghost use Rattle.rx_term.specs.Language.{Each, DerivativeLaw, MembershipLaw};
ghost use Rattle.rx_term.specs.Closing.{Apart, ClosingLaw};
ghost use Rattle.rx_term.specs.Pattern.{IsFaultAt};

/// A text that begins with a byte is in a term exactly where its rest is in a partial derivative by the byte.
pub fn derivative_law()
    ensures { DerivativeLaw }
{}

/// The test of membership by states is true exactly where the text is in the term.
pub fn membership_law()
    ensures { MembershipLaw }
{}

/// Where words close, no text of any length meets the literals.
pub fn closing_law()
    ensures { ClosingLaw }
{}

/// A text that is no pattern is at fault at one offset.
pub fn one_fault()
    ensures { (w : List ℕ) (a b : ℕ) → IsFaultAt w a → IsFaultAt w b → a ≡ b }
{}

/// Pairwise different rows of n marks are at most 2 ^ n.
pub fn counting_law()
    ensures { (n : ℕ) (rows : List (List Bool)) → Each (λ row. length row ≡ n) rows
        → Apart (λ x y. x ≡ y) rows → length rows ≤ 2 ^ n }
{}
