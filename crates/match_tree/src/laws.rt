// Laws of the guards of trees, which a function that does nothing promises.
ghost use Rattle.match_tree.specs.GuardLaws.{PredicateLaw, GuardLaw, GuardNumbersLaw};

/// The first true guard of a lawful tree is the tree's outcome with the routes' own rules, each route has one guard, and the
/// condition of a predicate is true at a valid request exactly where the predicate holds.
pub fn guard_laws()
    ensures predicates { PredicateLaw }
    ensures first { GuardLaw }
    ensures numbers { GuardNumbersLaw }
{}
