// The align walk over a function, as definitions, and three small cases of it. An inner crate of definitions.
#![tactic(auto)]

ghost use Rattle.align_rules.specs.Cases.{CasesHold};

pub fn cases_hold()
    ensures { CasesHold }
{}
