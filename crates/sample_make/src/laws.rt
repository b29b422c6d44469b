// What holds of the sample, as goals of its routes ask for it. Each function does nothing and promises its laws.
ghost use Rattle.std.specs.Prelude.{◌≡◌, ◌≤◌, ◌*◌, ℕ, length};
ghost use Rattle.cfg_types.specs.Choices.{routes_before};
ghost use Rattle.cfg_types.specs.Lawful.{IsLawful};
ghost use Rattle.cfg_types.specs.Order.{routes};
ghost use Rattle.sample_make.specs.Samples.{made, sample_hosts};

/// The sample of at most 2,000 hosts is lawful.
pub fn lawful_law()
    ensures { (n : ℕ) → n ≤ 2000 → IsLawful (made n) }
{}

/// The sample has as many hosts as were asked for, and five routes for each, so that five times as many routes come before
/// a host as hosts do.
pub fn count_law()
    ensures hosts { (n : ℕ) → length (sample_hosts n) ≡ n }
    ensures routes { (n : ℕ) → length (routes (made n)) ≡ 5 * n }
    ensures before { (n h : ℕ) → h ≤ n → routes_before (sample_hosts n) h ≡ 5 * h }
{}
