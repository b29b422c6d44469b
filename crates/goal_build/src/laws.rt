// Laws of goals, which a function that does nothing promises.
ghost use Rattle.goal_build.specs.Laws.{HostLaw, SentLaw, WellFormedLaw};

/// On a lawful configuration the goal of a route is well formed, and true at a valid request exactly where the request is
/// sent to the route. Of its parts, that of the host is true exactly where the request is the host's.
pub fn goal_laws()
    ensures hosts { HostLaw }
    ensures sent { SentLaw }
    ensures formed { WellFormedLaw }
{}
