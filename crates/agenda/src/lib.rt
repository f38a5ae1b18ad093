// An inner crate: lists that stay sorted, over lent rows, for entries of any type that says which of two goes before.
// No method asks anything of its caller: `entries` says what an agenda holds.
#![tactic(auto)]

ghost use Rattle.agenda.specs.Laws.{Sorts};
ghost use Rattle.agenda.specs.Examples.{OpeningExample, ClosingExample};

mod agenda;
mod entry;
mod scopes;

pub use agenda::{Agenda, Full};
pub use entry::Entry;
pub use scopes::{ClosingEntry, OpeningEntry, ScopeEntry};

// What an agenda holds after entries were added to an empty one.
pub fn sorting_stands<E: Entry>()
    ensures { Sorts {X = E} E.before }
{}

// Entries in the order in which their scopes open.
pub fn opening_example()
    ensures { OpeningExample }
{}

// The same entries in the order in which their scopes close.
pub fn closing_example()
    ensures { ClosingExample }
{}
