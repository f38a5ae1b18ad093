// What can be wrong with a listing.
use record_encoding::EncodeError;
use std::error::Error;
use std::fmt;

// What a line was to have at one of its words.
#[derive(Clone, Copy, Debug, PartialEq, Eq)]
pub enum Wanted {
    Item,
    Number,
    BlockKind,
    InstructionKind,
    TerminalKind,
    PartName,
    LineEnd,
    OpenBlock,
    Terminal,
}

// Why a line gives no row: the record has no place for it, or one of the line's words is not what
// was wanted there.
#[derive(Clone, Copy, Debug, PartialEq, Eq)]
pub enum Problem {
    NoRecord(EncodeError),
    At { wanted: Wanted, word: usize },
}

// Why a text makes no record. What was found stands in the text itself, or the line ends there.
#[derive(Clone, Copy, Debug, PartialEq, Eq)]
pub enum ListingError<'t> {
    NoRecord(EncodeError),
    Line {
        number: usize,
        wanted: Wanted,
        found: Option<&'t str>,
    },
}

impl Wanted {
    // That it is wanted at this word, and not there.
    pub(crate) fn at(self, word: usize) -> Problem {
        Problem::At { wanted: self, word }
    }
}

impl Problem {
    // The problem as that of a text, with the line that has it.
    pub fn of_line<'t>(self, number: usize, words: &[&'t str]) -> ListingError<'t> {
        match self {
            Problem::NoRecord(e) => ListingError::NoRecord(e),
            Problem::At { wanted, word } => ListingError::Line {
                number,
                wanted,
                found: words.get(word).copied(),
            },
        }
    }
}

impl<E: Into<EncodeError>> From<E> for Problem {
    fn from(e: E) -> Problem {
        Problem::NoRecord(e.into())
    }
}

impl<E: Into<EncodeError>> From<E> for ListingError<'_> {
    fn from(e: E) -> Self {
        ListingError::NoRecord(e.into())
    }
}

impl fmt::Display for Wanted {
    fn fmt<W: fmt::Write>(&self, f: &mut fmt::Formatter<W>) -> fmt::Result {
        f.write_str(match *self {
            Wanted::Item => "an item",
            Wanted::Number => "a number",
            Wanted::BlockKind => "a block kind",
            Wanted::InstructionKind => "an instruction kind",
            Wanted::TerminalKind => "a terminal kind",
            Wanted::PartName => "the name of a part",
            Wanted::LineEnd => "the end of the line",
            Wanted::OpenBlock => "a block before it",
            Wanted::Terminal => "the terminal of the block before",
        })
    }
}

impl fmt::Display for ListingError<'_> {
    fn fmt<W: fmt::Write>(&self, f: &mut fmt::Formatter<W>) -> fmt::Result {
        match *self {
            ListingError::NoRecord(e) => write!(f, "{e}"),
            ListingError::Line {
                number,
                wanted,
                found,
            } => {
                write!(f, "line {number}: expected {wanted}, found ")?;
                match found {
                    Some(word) => write!(f, "'{word}'"),
                    None => f.write_str("the end"),
                }
            }
        }
    }
}

impl Error for ListingError<'_> {}
