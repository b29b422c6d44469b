// Laws of the definitions, each the contract of a function that does nothing.
ghost use Rattle.goal_form.specs.Valid.{ValidTermLaw};

/// A text is in the term of a field exactly where it is valid there.
pub fn valid_term_law()
    ensures { ValidTermLaw }
{}
