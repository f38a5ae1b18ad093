// What the tests before a pass say of a function that passes them. An inner crate of theorems.
#![tactic(auto)]

ghost use Rattle.function_laws.specs.Laws.{PassingIsSound, BlocksFollow};

pub fn passing_is_sound()
    ensures { PassingIsSound }
{}

pub fn blocks_follow()
    ensures { BlocksFollow }
{}
