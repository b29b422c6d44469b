// Laws of the conditions of rules, which a function that does nothing promises.
ghost use Rattle.rule_form.specs.Laws.{HeaderLaw, QueryLaw, FractionLaw, GrpcLaw, PathLaw, RuleLaw, RuleNamesLaw};

/// The condition of a lawful rule is true at a valid request exactly where the rule holds.
pub fn rule_laws()
    ensures headers { HeaderLaw }
    ensures queries { QueryLaw }
    ensures fractions { FractionLaw }
    ensures grpc { GrpcLaw }
    ensures paths { PathLaw }
    ensures rules { RuleLaw }
    ensures names { RuleNamesLaw }
{}
