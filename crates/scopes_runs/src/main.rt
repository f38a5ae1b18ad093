// A test: the program's work for other programs, on the sample page, on a damaged copy of it, on a
// file that is not there, and for bad usage.
#![tactic(auto)]

use scopes_cli::report;
use std::{fs, io};

fn run(rt: &HostRuntime, words: &[&str]) -> io::Result<()> {
    let mut all = Vec::new(rt.alloc());
    for word in words {
        all.push(String::from_str(rt.alloc(), word)?)?;
    }
    let done = report(rt, all.as_slice())?;
    println!(rt; "every file accepted: {done}")
}

// The sample without its last byte.
fn damage(rt: &HostRuntime) -> io::Result<()> {
    let mut bytes = fs::read(rt, "ticket.hir")?;
    bytes.pop();
    fs::write(rt, "cut.hir", bytes.as_slice())
}

fn main(rt: HostRuntime) -> io::Result<()> {
    damage(&rt)?;
    run(&rt, &["--plain", "ticket.hir"])?;
    run(&rt, &["--plain", "cut.hir", "missing.hir", "-"])?;
    run(&rt, &["cut.hir"])?;
    run(&rt, &["--plain", "--inspect", "ticket.hir", "cut.hir"])?;
    run(&rt, &["--inspect", "ticket.hir"])?;
    run(&rt, &["--quiet", "ticket.hir"])?;
    run(&rt, &["--plain"])?;
    run(&rt, &["--help"])
}
