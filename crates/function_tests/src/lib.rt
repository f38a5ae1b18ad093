// The tests that both passes make before they change anything. An inner crate.
#![tactic(auto)]

mod each;
mod memory;
mod places;
mod ranges;
mod reach;
mod rows;
mod tested;
mod testing;
mod walk;

pub use memory::Memory;
pub use testing::test_function;
