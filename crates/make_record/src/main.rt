// Makes a record from a readable listing: `make_record [FILE]`. The listing is read from the file,
// or from standard input, and the record's bytes go to standard output.
#![tactic(auto)]

use anyhow::anyhow;
use listing::record_of;
use std::io::Write;
use std::process::ExitCode;
use std::{env, fs, io};

fn read_listing(rt: &HostRuntime) -> anyhow::Result<String> {
    let mut words = env::args(rt)?.skip(1);
    let file = words.next();
    if words.next().is_some() {
        return Err(anyhow!("usage: make_record [FILE]"));
    }
    Ok(match file {
        Some(path) => fs::read_to_string(rt, path)?,
        None => io::read_to_string(rt.alloc(), rt.stdin())?,
    })
}

fn run(rt: &HostRuntime) -> anyhow::Result<()> {
    let text = read_listing(rt)?;
    let record = record_of(rt.alloc(), text.as_str())?;
    rt.stdout().write_all(record.as_slice())?;
    Ok(())
}

fn main(rt: HostRuntime) -> ExitCode {
    match run(&rt) {
        Ok(()) => ExitCode::SUCCESS,
        Err(e) => {
            let _ = eprintln!(rt; "make_record: {e}");
            ExitCode::FAILURE
        }
    }
}
