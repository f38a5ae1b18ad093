// Records made for a case.
use std::alloc::{AllocError, Global};
use std::fmt;

// The name of a case.
#[derive(Clone, Copy, Debug)]
pub enum Name {
    Plain(&'static str),
    Numbered(&'static str, usize),
    Of(&'static str, &'static str),
}

impl fmt::Display for Name {
    fn fmt<W: fmt::Write>(&self, f: &mut fmt::Formatter<W>) -> fmt::Result {
        match *self {
            Name::Plain(name) => f.write_str(name),
            Name::Numbered(name, number) => write!(f, "{name} {number}"),
            Name::Of(list, what) => write!(f, "{list} {what}"),
        }
    }
}

// A record's bytes with one of them changed.
pub fn with_byte(heap: Global, record: &[u8], at: usize, byte: u8) -> Result<Vec<u8>, AllocError> {
    let mut bytes = Vec::from_slice(heap, record)?;
    if let Some(slot) = bytes.get_mut(at) {
        *slot = byte;
    }
    Ok(bytes)
}

// The mark, the version and the counts are written here anew, so that a wrong encoder shows.
fn put_counts(out: &mut Vec<u8>, counts: [u32; 5]) -> Result<(), AllocError> {
    for count in counts {
        out.extend_from_slice(&count.to_be_bytes())?;
    }
    Ok(())
}

// A header with these counts, and so many bytes after it.
pub fn record_with(heap: Global, counts: [u32; 5], body: usize) -> Result<Vec<u8>, AllocError> {
    let mut out = Vec::new(heap);
    out.extend_from_slice(b"HIR\x00\x01")?;
    put_counts(&mut out, counts)?;
    // A loop: `extend` by a map takes a sixth more instructions.
    for i in 0..body {
        out.push((i % 251) as u8)?;
    }
    Ok(out)
}
