// Laws of the definitions, each the contract of a function that does nothing.
ghost use Rattle.cert_check.specs.Laws.{OneGoalLaw};

/// A route has at most one goal.
pub fn one_goal_law()
    ensures { OneGoalLaw }
{}
