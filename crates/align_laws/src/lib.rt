// What an align keeps, and how it fits ranges to brackets. An inner crate of theorems.
#![tactic(auto)]

ghost use Rattle.align_laws.specs.Laws.{AlignOnlyWidens, UnmetStay, AlignKeepsSound, BracketEnds, BracketStarts};

pub fn align_only_widens()
    ensures { AlignOnlyWidens }
{}

pub fn unmet_stay()
    ensures { UnmetStay }
{}

pub fn align_keeps_sound()
    ensures { AlignKeepsSound }
{}

pub fn bracket_ends()
    ensures { BracketEnds }
{}

pub fn bracket_starts()
    ensures { BracketStarts }
{}
