// The rules of the merge pass as definitions, and what holds of them for any function. An inner crate of definitions and theorems.
#![tactic(auto)]

ghost use Rattle.merge_rules.specs.Cases.{ExamplesHold};
ghost use Rattle.merge_rules.specs.Laws.{MergeWidens};

pub fn examples_hold()
    ensures { ExamplesHold }
{}

pub fn merge_widens()
    ensures { MergeWidens }
{}
