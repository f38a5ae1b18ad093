// A test: the tests before a pass on many small functions, each as tables and, where its record can
// be read, as a record. Standard input has the functions as listings, each after a line
// `case NAME`, `case NAME align WORDS` or `case NAME merge WORDS OPENINGS CLOSINGS ROOTS`; without
// a memory it gets exactly enough. A line `repeat N LINE` stands for N lines.
#![tactic(auto)]

mod cases;
mod verdict;

use cases::{Case, cases_of};
use std::io;
use verdict::print_verdicts;

fn run(rt: &HostRuntime) -> anyhow::Result<()> {
    let text = io::read_to_string(rt.alloc(), rt.stdin())?;
    let cases: Vec<Case> = cases_of(rt.alloc(), text.as_str())?;
    for case in cases.iter() {
        print_verdicts(rt, case)?;
    }
    Ok(())
}

fn main(rt: HostRuntime) -> anyhow::Result<()> {
    run(&rt)
}
