// Cases made from one record, and small ones of their own.
use crate::made::{Name, record_with, with_byte};
use crate::report::report;
use std::io;

// Every prefix, the record itself at last. Each length is a case, and its number.
pub fn prefixes(rt: &HostRuntime, record: &[u8]) -> io::Result<()> {
    for n in 0..=record.len() {
        report(rt, Name::Numbered("prefix", n), &record[..n])?;
    }
    Ok(())
}

// Each byte in turn raised by 1.
pub fn bytes(rt: &HostRuntime, record: &[u8]) -> io::Result<()> {
    for (i, byte) in record.iter().enumerate() {
        let changed = with_byte(rt.alloc(), record, i, byte.wrapping_add(1))?;
        report(rt, Name::Numbered("byte", i), changed.as_slice())?;
    }
    Ok(())
}

// Each byte of the mark in lower case.
pub fn marks(rt: &HostRuntime, record: &[u8]) -> io::Result<()> {
    for (i, byte) in b"hir".iter().enumerate() {
        let changed = with_byte(rt.alloc(), record, i, *byte)?;
        report(rt, Name::Numbered("mark", i), changed.as_slice())?;
    }
    Ok(())
}

// Other versions than 1.
pub fn versions(rt: &HostRuntime, record: &[u8]) -> io::Result<()> {
    for version in [0u16, 2, 256, 257, 65_535] {
        let [high, low] = version.to_be_bytes();
        let half = with_byte(rt.alloc(), record, 3, high)?;
        let changed = with_byte(rt.alloc(), half.as_slice(), 4, low)?;
        report(
            rt,
            Name::Numbered("version", version as usize),
            changed.as_slice(),
        )?;
    }
    Ok(())
}

// A byte too many, and a header alone.
pub fn lengths(rt: &HostRuntime, record: &[u8]) -> io::Result<()> {
    let mut longer = Vec::from_slice(rt.alloc(), record)?;
    longer.push(0)?;
    report(rt, Name::Plain("a byte too many"), longer.as_slice())?;
    let header = record_with(rt.alloc(), [0; 5], 0)?;
    report(rt, Name::Plain("header alone"), header.as_slice())?;
    let header = record_with(rt.alloc(), [0; 5], 1)?;
    report(rt, Name::Plain("header and a byte"), header.as_slice())
}

// Records with several faults, of which the first is given.
pub fn orders(rt: &HostRuntime) -> io::Result<()> {
    report(rt, Name::Plain("24 zeros"), &[0; 24])?;
    report(rt, Name::Plain("25 zeros"), &[0; 25])?;
    let largest = record_with(rt.alloc(), [4_294_967_295; 5], 0)?;
    let version = with_byte(rt.alloc(), largest.as_slice(), 4, 0)?;
    report(rt, Name::Plain("version before limit"), version.as_slice())?;
    let mark = with_byte(rt.alloc(), version.as_slice(), 2, 0)?;
    report(rt, Name::Plain("mark before version"), mark.as_slice())?;
    report(rt, Name::Plain("limit before length"), largest.as_slice())
}
