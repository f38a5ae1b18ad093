// Runs many records through `check`, `open` and `load`, and prints a line for each. A small listing
// on standard input gives the record that most cases are made from.
#![tactic(auto)]

mod cases;
mod checksum;
mod limits;
mod loads;
mod made;
mod report;
mod telling;

use listing::record_of;
use std::io;

fn run(rt: &HostRuntime) -> io::Result<()> {
    let text = io::read_to_string(rt.alloc(), rt.stdin())?;
    match record_of(rt.alloc(), text.as_str()) {
        Ok(record) => {
            cases::prefixes(rt, record.as_slice())?;
            cases::bytes(rt, record.as_slice())?;
            cases::marks(rt, record.as_slice())?;
            cases::versions(rt, record.as_slice())?;
            cases::lengths(rt, record.as_slice())
        }
        Err(e) => {
            eprintln!(rt; "record_cases: {e}")?;
            Err(io::Error::from(io::ErrorKind::InvalidData))
        }
    }
}

fn main(rt: HostRuntime) -> io::Result<()> {
    run(&rt)?;
    cases::orders(&rt)?;
    limits::limits(&rt)?;
    limits::overflows(&rt)
}
