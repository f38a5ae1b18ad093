// One fact to a line.
ghost use Rattle.std.specs.Iterator.{IsFinite};

use crate::page::Page;
use crate::printer::Printer;
use fault_text::{OrDash, PlainFault};
use hir_faults::{Envelope, Fault};
use react_compiler_hir::{Row, Source};
use std::{fmt, io};

#[derive(Clone, Copy)]
pub struct Plain<'a> {
    pub rt: &'a HostRuntime,
}

// Numbers, each behind a space.
#[derive(Clone, Copy, Debug)]
struct Numbers<'a>(&'a [u32]);

impl fmt::Display for Numbers<'_> {
    fn fmt<W: fmt::Write>(&self, f: &mut fmt::Formatter<W>) -> fmt::Result {
        for number in self.0 {
            write!(f, " {number}")?;
        }
        Ok(())
    }
}

impl Plain<'_> {
    // A line for each of some rows. They are numbered by `zip`: of `enumerate` over an iterator whose
    // type is open, the check leaves a goal on its count.
    fn rows<const N: usize, R: Row<N>, I: Iterator<Item = R> + Drop>(
        &self,
        name: &str,
        rows: I,
    ) -> io::Result<()>
        requires can { I.can_next rows }
        requires ends { IsFinite (I.remaining rows) }
    {
        for (i, row) in (0usize..).zip(rows) {
            println!(self.rt; "{name} {i}{}", Numbers(&row.words()))?;
        }
        Ok(())
    }

    // Not by the words of their rows, since a scope may be `-`.
    fn identifiers(&self, page: &Page) -> io::Result<()> {
        for (i, row) in page.identifiers.iter().enumerate() {
            let range = row.mutable_range;
            let scope = OrDash(row.scope_position());
            println!(self.rt;
                "identifier {i} {} {} {} {scope} {}",
                range.id, range.start, range.end, row.primitive
            )?;
        }
        Ok(())
    }
}

impl Printer for Plain<'_> {
    fn begin(&self, name: &str) -> io::Result<()> {
        println!(self.rt; "file {name}")
    }

    fn page<S: Source>(&self, _name: &str, source: &S, page: &Page) -> io::Result<()> {
        println!(self.rt; "counts{}", Numbers(&page.counts.words()))?;
        self.rows(
            "block",
            (0..source.block_count()).map_while(|i| source.block(i)),
        )?;
        self.rows(
            "instruction",
            (0..source.instruction_count()).map_while(|i| source.instruction(i)),
        )?;
        self.rows(
            "word",
            (0..source.word_count()).map_while(|i| source.word(i)),
        )?;
        self.rows("scope", page.scopes.iter().copied())?;
        self.identifiers(page)
    }

    fn sound(&self, _name: &str, numbers: u32) -> io::Result<()> {
        println!(self.rt; "sound {numbers}")
    }

    fn refusal(&self, _name: &str, e: Envelope<Fault>) -> io::Result<()> {
        println!(self.rt; "{}", PlainFault(e))
    }
}
