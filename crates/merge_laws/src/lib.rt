// What the classes of a merge are, and what it leaves to named roots. An inner crate of theorems.
#![tactic(auto)]

ghost use Rattle.merge_laws.specs.Laws.{RootsByChains, NamedRootsNeverCross, ExamplesPass};

pub fn roots_by_chains()
    ensures { RootsByChains }
{}

pub fn named_roots_never_cross()
    ensures { NamedRootsNeverCross }
{}

pub fn examples_pass()
    ensures { ExamplesPass }
{}
