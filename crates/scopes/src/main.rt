// Prints the records that it is given; `scopes --help` says how.
#![tactic(auto)]

use scopes_cli::report;
use std::env;
use std::process::ExitCode;

fn main(rt: HostRuntime) -> anyhow::Result<ExitCode> {
    let words: Vec<String> = env::args(&rt)?.skip(1).collect(rt.alloc())?;
    Ok(if report(&rt, words.as_slice())? {
        ExitCode::SUCCESS
    } else {
        ExitCode::FAILURE
    })
}
