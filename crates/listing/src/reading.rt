// A listing, read line by line.
use crate::error::{ListingError, Problem, Wanted};
use crate::fields::Words;
use crate::rows::{identifier_row, row};
use react_compiler_hir::{BlockKind, BlockRow, InstructionKind, InstructionRow, TerminalKind};
use record_encoding::{Listing, count};
use std::alloc::Global;
use std::ops::Range;

// A block whose terminal is still to come.
#[derive(Clone, Copy, Debug)]
struct OpenBlock {
    // A listing may give a number that names no kind.
    kind: u32,
    first_instruction: u32,
}

// Where the list of an instruction or of a terminal begins, and how long its two parts are.
#[derive(Clone, Copy, Debug)]
struct List {
    start: u32,
    first: u32,
    second: u32,
}

// The rows read so far, and the block that is open.
#[derive(Drop)]
struct Reader {
    heap: Global,
    listing: Listing,
    open: Option<OpenBlock>,
}

// Appends the numbers at these places of a line, and answers how many there are. The words are taken
// by place and not as a slice, since a problem names the place.
fn push_words(all: &mut Vec<u32>, words: Words<'_>, places: Range<usize>) -> Result<u32, Problem> {
    let length = places.len();
    for at in places {
        all.push(words.number(at)?)?;
    }
    Ok(count(length)?)
}

// Appends the two parts of a list.
fn push_list(
    all: &mut Vec<u32>,
    words: Words<'_>,
    at: usize,
    first: &str,
    second: &str,
) -> Result<List, Problem> {
    let parts = words.parts(at, first, second)?;
    Ok(List {
        start: count(all.len())?,
        first: push_words(all, words, parts.first)?,
        second: push_words(all, words, parts.second)?,
    })
}

impl Reader {
    // One line, by its words.
    fn item(&mut self, words: Words<'_>) -> Result<(), Problem> {
        match words.0 {
            [] => Ok(()),
            ["scope", ..] => Ok(self.listing.scopes.push(row(words)?)?),
            ["identifier", ..] => Ok(self.listing.identifiers.push(identifier_row(words)?)?),
            ["block", ..] => self.block(words),
            ["instruction", ..] => self.instruction(words),
            ["terminal", ..] => self.terminal(words),
            ["block-row", ..] => Ok(self.listing.blocks.push(row(words)?)?),
            ["instruction-row", ..] => Ok(self.listing.instructions.push(row(words)?)?),
            ["word", ..] => Ok(self.listing.words.push(row(words)?)?),
            _ => Err(Wanted::Item.at(0)),
        }
    }

    fn block(&mut self, words: Words<'_>) -> Result<(), Problem> {
        if self.open.is_some() {
            return Err(Wanted::Terminal.at(0));
        }
        let kind = words.kind::<BlockKind>(self.heap, 1)?;
        words.end(2)?;
        let first_instruction = count(self.listing.instructions.len())?;
        self.open = Some(OpenBlock {
            kind,
            first_instruction,
        });
        Ok(())
    }

    fn instruction(&mut self, words: Words<'_>) -> Result<(), Problem> {
        if self.open.is_none() {
            return Err(Wanted::OpenBlock.at(0));
        }
        let list = push_list(&mut self.listing.words, words, 4, "targets", "reads")?;
        let row = InstructionRow {
            number: words.number(1)?,
            kind: words.kind::<InstructionKind>(self.heap, 2)?,
            lvalue: words.number(3)?,
            list_start: list.start,
            target_count: list.first,
            read_count: list.second,
        };
        Ok(self.listing.instructions.push(row)?)
    }

    // It closes the open block, which has the instructions that were read since.
    fn terminal(&mut self, words: Words<'_>) -> Result<(), Problem> {
        let open = self.open.take().ok_or(Wanted::OpenBlock.at(0))?;
        let list = push_list(&mut self.listing.words, words, 3, "operands", "successors")?;
        let rows = count(self.listing.instructions.len())?;
        let row = BlockRow {
            kind: open.kind,
            first_instruction: open.first_instruction,
            instruction_count: rows.saturating_sub(open.first_instruction),
            terminal_number: words.number(1)?,
            terminal_kind: words.kind::<TerminalKind>(self.heap, 2)?,
            list_start: list.start,
            operand_count: list.first,
            successor_count: list.second,
        };
        Ok(self.listing.blocks.push(row)?)
    }

    // One line, as it stands in the text.
    fn line<'t>(&mut self, number: usize, text: &'t str) -> Result<(), ListingError<'t>> {
        let code = text.split_once('#').map_or(text, |(code, _)| code);
        let words: Vec<&'t str> = code.split_whitespace().collect(self.heap)?;
        self.item(Words(words.as_slice()))
            .map_err(|problem| problem.of_line(number, words.as_slice()))
    }
}

// The rows of a listing.
pub fn parse(heap: Global, text: &str) -> Result<Listing, ListingError<'_>> {
    let mut reader = Reader {
        heap,
        listing: Listing::new(heap),
        open: None,
    };
    let mut last = 0;
    for (number, line) in (1..).zip(text.lines()) {
        last = number;
        reader.line(number, line)?;
    }
    if reader.open.is_some() {
        return Err(Wanted::Terminal.at(0).of_line(last, &[]));
    }
    Ok(reader.listing)
}

// The record of a listing.
pub fn record_of(heap: Global, text: &str) -> Result<Vec<u8>, ListingError<'_>> {
    Ok(parse(heap, text)?.record(heap)?)
}
