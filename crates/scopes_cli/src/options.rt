// What the command line asks for.
use std::alloc::{AllocError, Global};
use std::error::Error;
use std::fmt;

pub const HELP: &str = "usage: scopes [--inspect] [--plain] FILE...
       scopes --help

Reads each record, checks it, and prints its counts, its blocks with their terminals, its
instructions, and its scope and identifier rows. FILE is a path, or - for standard input.

--inspect makes the tests that the passes make first, and prints in place of all this whether the
function is sound, and then how many instructions and terminals it has.

A record or function that is refused gives one line on standard error: the fault's number, what it
means, the layer that gave it and the place. The exit status is 0 if all were accepted, else 1.

--plain prints one fact to a line on standard output, for other programs to read:
  file NAME                        before the lines of each file
  counts B I W S D                 blocks, instructions, words, scopes, identifiers
  block I KIND FIRST COUNT TERMINAL NUMBER LIST OPERANDS SUCCESSORS
  instruction I NUMBER KIND LVALUE LIST TARGETS READS
  word I WORD
  scope I ID START END
  identifier I ID START END SCOPE PRIMITIVE      SCOPE is - for none
  sound N                                        with --inspect, of a function of N numbers
  fault NUMBER LAYER BLOCK STEP KIND             - where absent; KIND is the source's kind number
";

// How the facts are laid out.
#[derive(Clone, Copy, Debug, PartialEq, Eq)]
pub enum Layout {
    Columns,
    Plain,
}

// What is to be printed of each file.
#[derive(Clone, Copy, Debug, PartialEq, Eq)]
pub enum Task {
    Show,
    Inspect,
}

#[derive(Debug, Drop)]
pub enum Order {
    Help,
    Run {
        task: Task,
        layout: Layout,
        files: Vec<String>,
    },
}

// Why words are no order.
#[derive(Debug, Drop)]
pub enum OrderError {
    UnknownOption(String),
    NoFile,
    Memory(AllocError),
}

impl<E: Into<AllocError>> From<E> for OrderError {
    fn from(e: E) -> OrderError {
        OrderError::Memory(e.into())
    }
}

impl fmt::Display for OrderError {
    fn fmt<W: fmt::Write>(&self, f: &mut fmt::Formatter<W>) -> fmt::Result {
        match self {
            OrderError::UnknownOption(word) => write!(f, "there is no option '{word}'"),
            OrderError::NoFile => f.write_str("no file is named"),
            OrderError::Memory(e) => write!(f, "{e}"),
        }
    }
}

impl Error for OrderError {}

// Takes the words after the program's name.
pub fn order_of(heap: Global, words: &[String]) -> Result<Order, OrderError> {
    let mut task = Task::Show;
    let mut layout = Layout::Columns;
    let mut files = Vec::new(heap);
    for word in words {
        match word.as_str() {
            "--help" | "-h" => return Ok(Order::Help),
            "--plain" => layout = Layout::Plain,
            "--inspect" => task = Task::Inspect,
            option if option != "-" && option.starts_with('-') => {
                return Err(OrderError::UnknownOption(word.clone()?));
            }
            _ => files.push(word.clone()?)?,
        }
    }
    if files.is_empty() {
        return Err(OrderError::NoFile);
    }
    Ok(Order::Run {
        task,
        layout,
        files,
    })
}
