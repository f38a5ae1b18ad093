// What any list of calls of the two passes keeps, and the small cases. An inner crate of theorems.
#![tactic(auto)]

ghost use Rattle.calls.specs.Kept.{KeptOverCalls};
ghost use Rattle.calls.specs.Cases.{TenCasesHold};

pub fn kept_over_calls()
    ensures { KeptOverCalls }
{}

pub fn ten_cases_hold()
    ensures { TenCasesHold }
{}
