// The work of the program `scopes`, apart from its `main`: reads records and prints what they hold.
#![tactic(auto)]

mod columns;
mod inspection;
mod options;
mod page;
mod plain;
mod printer;
mod reporting;

pub use reporting::report;
