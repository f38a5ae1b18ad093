// What is printed of a file.
use crate::page::Page;
use hir_faults::{Envelope, Fault};
use react_compiler_hir::Source;
use std::io;

// A layout of the facts, and where they are printed.
pub trait Printer {
    // Before the facts of a file.
    fn begin(&self, name: &str) -> io::Result<()>;

    // What a record holds.
    fn page<S: Source>(&self, name: &str, source: &S, page: &Page) -> io::Result<()>;

    // That the function is sound, and has so many numbers.
    fn sound(&self, name: &str, numbers: u32) -> io::Result<()>;

    // Why the record or its function is refused.
    fn refusal(&self, name: &str, e: Envelope<Fault>) -> io::Result<()>;
}
