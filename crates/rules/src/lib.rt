// Words that the rules of both passes share. An inner crate of definitions.
#![tactic(auto)]
