// The facts in columns, for a person.
use crate::page::Page;
use crate::printer::Printer;
use fault_text::{FaultLine, OrDash};
use hir_faults::{Envelope, Fault};
use react_compiler_hir::{
    BlockKind, BlockRow, InstructionKind, InstructionRow, Kind, Source, TerminalKind,
};
use std::alloc::{AllocError, Global};
use std::{fmt, io};

#[derive(Clone, Copy)]
pub struct Columns<'a> {
    pub rt: &'a HostRuntime,
}

// A part of a list, each word behind a space, with a ? for the first that the source does not tell:
// so it goes by positions, and not only by the words that are told. No `Part` of the shapes, since its
// start may be past all positions.
#[derive(Drop)]
struct Part<'a, S> {
    source: &'a S,
    // Absent where no position tells it.
    start: Option<u32>,
    count: u32,
}

impl<S: Source> fmt::Display for Part<'_, S> {
    fn fmt<W: fmt::Write>(&self, f: &mut fmt::Formatter<W>) -> fmt::Result {
        let Some(start) = self.start else {
            return f.write_str(" ?");
        };
        let start = start as usize;
        for at in start..start + self.count as usize {
            let Some(word) = self.source.word(at) else {
                return f.write_str(" ?");
            };
            write!(f, " {word}")?;
        }
        Ok(())
    }
}

// The two parts of a list, the second right behind the first.
fn parts<S: Source>(source: &S, start: u32, first: u32, second: u32) -> (Part<'_, S>, Part<'_, S>) {
    let first_part = Part {
        source,
        start: Some(start),
        count: first,
    };
    let second_part = Part {
        source,
        start: start.checked_add(first),
        count: second,
    };
    (first_part, second_part)
}

// A kind's name, or its number where there is no such kind. It is a text since only texts are
// filled up to the width of a column.
fn kind_name<K: Kind>(heap: Global, number: u32) -> Result<String, AllocError> {
    match K::from_number(number) {
        Some(kind) => format!(in heap; "{kind:?}"),
        None => format!(in heap; "{number}?"),
    }
}

// Each table has a heading and columns of its own.
impl Columns<'_> {
    fn blocks<S: Source>(&self, source: &S) -> io::Result<()> {
        println!(self.rt)?;
        println!(self.rt;
            "block  kind      instructions  number  terminal     operands -> successors"
        )?;
        for (i, row) in (0..source.block_count())
            .map_while(|i| source.block(i))
            .enumerate()
        {
            self.block(source, i, row)?;
        }
        Ok(())
    }

    fn block<S: Source>(&self, source: &S, i: usize, row: BlockRow) -> io::Result<()> {
        let heap = self.rt.alloc();
        let kind = kind_name::<BlockKind>(heap, row.kind)?;
        let terminal = kind_name::<TerminalKind>(heap, row.terminal_kind)?;
        let run = format!(in heap; "{} from {}", row.instruction_count, row.first_instruction)?;
        let number = row.terminal_number;
        let (operands, successors) = parts(
            source,
            row.list_start,
            row.operand_count,
            row.successor_count,
        );
        println!(self.rt;
            "{i:>5}  {kind:<8}  {run:<12}  {number:>6}  {terminal:<11} {operands} ->{successors}"
        )
    }

    fn instructions<S: Source>(&self, source: &S) -> io::Result<()> {
        println!(self.rt)?;
        println!(self.rt;
            "instruction  number  kind                      lvalue  targets <- reads"
        )?;
        for (i, row) in (0..source.instruction_count())
            .map_while(|i| source.instruction(i))
            .enumerate()
        {
            self.instruction(source, i, row)?;
        }
        Ok(())
    }

    fn instruction<S: Source>(&self, source: &S, i: usize, row: InstructionRow) -> io::Result<()> {
        let kind = kind_name::<InstructionKind>(self.rt.alloc(), row.kind)?;
        let number = row.number;
        let lvalue = row.lvalue;
        let (targets, reads) = parts(source, row.list_start, row.target_count, row.read_count);
        println!(self.rt; "{i:>11}  {number:>6}  {kind:<24}  {lvalue:>6} {targets} <-{reads}")
    }

    fn scopes(&self, page: &Page) -> io::Result<()> {
        println!(self.rt)?;
        println!(self.rt; "scope  range id  start    end")?;
        for (i, row) in page.scopes.iter().enumerate() {
            let range = row.range;
            println!(self.rt;
                "{i:>5}  {:>8}  {:>5}  {:>5}",
                range.id, range.start, range.end
            )?;
        }
        Ok(())
    }

    fn identifiers(&self, page: &Page) -> io::Result<()> {
        println!(self.rt)?;
        println!(self.rt; "identifier  range id  start    end  scope  primitive")?;
        for (i, row) in page.identifiers.iter().enumerate() {
            let range = row.mutable_range;
            let scope = OrDash(row.scope_position());
            let primitive = if row.is_primitive() { "yes" } else { "no" };
            println!(self.rt;
                "{i:>10}  {:>8}  {:>5}  {:>5}  {scope:>5}  {primitive}",
                range.id, range.start, range.end
            )?;
        }
        Ok(())
    }
}

impl Printer for Columns<'_> {
    fn begin(&self, _name: &str) -> io::Result<()> {
        Ok(())
    }

    fn page<S: Source>(&self, name: &str, source: &S, page: &Page) -> io::Result<()> {
        let c = page.counts;
        println!(self.rt;
            "{name}: {} blocks, {} instructions, {} words, {} scopes, {} identifiers",
            c.blocks, c.instructions, c.words, c.scopes, c.identifiers
        )?;
        self.blocks(source)?;
        self.instructions(source)?;
        self.scopes(page)?;
        self.identifiers(page)
    }

    fn sound(&self, name: &str, numbers: u32) -> io::Result<()> {
        println!(self.rt; "{name}: sound, with the numbers 1 to {numbers}")
    }

    fn refusal(&self, name: &str, e: Envelope<Fault>) -> io::Result<()> {
        eprintln!(self.rt; "{name}: {}", FaultLine(e))
    }
}
