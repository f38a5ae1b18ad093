// The cases of the standard input.
use function_tests::Memory;
use std::alloc::{AllocError, Global};

#[derive(Drop)]
pub struct Case {
    pub name: String,
    // What is lent to the pass; exactly enough where nothing is said.
    pub memory: Option<Memory>,
    pub listing: String,
}

// The number at a place; a case that gives none, or no number, lends nothing.
fn number_at(words: &[&str], i: usize) -> usize {
    words
        .get(i)
        .and_then(|word| word.parse::<usize>().ok())
        .unwrap_or(0)
}

fn memory_of(words: &[&str]) -> Option<Memory> {
    match words {
        [_, _, "align", ..] => Some(Memory::Align {
            words: number_at(words, 3),
        }),
        [_, _, "merge", ..] => Some(Memory::Merge {
            words: number_at(words, 3),
            openings: number_at(words, 4),
            closings: number_at(words, 5),
            roots: number_at(words, 6),
        }),
        _ => None,
    }
}

impl Case {
    // The case that a line begins, with nothing listed yet.
    fn begin(heap: Global, line: &str) -> Result<Case, AllocError> {
        let words: Vec<&str> = line.split_whitespace().collect(heap)?;
        let name = words.get(1).copied().unwrap_or("");
        Ok(Case {
            name: String::from_str(heap, name)?,
            memory: memory_of(words.as_slice()),
            listing: String::new(heap),
        })
    }

    fn add_line(&mut self, line: &str) -> Result<(), AllocError> {
        self.listing.push_str(line)?;
        self.listing.push('\n')
    }

    // A line of the listing, or the lines that `repeat` stands for.
    fn add_lines(&mut self, line: &str) -> Result<(), AllocError> {
        let Some(rest) = line.strip_prefix("repeat ") else {
            return self.add_line(line);
        };
        let Some((count, line)) = rest.split_once(' ') else {
            return Ok(());
        };
        // A count of lines, and no index.
        for _ in 0..count.parse::<u32>().unwrap_or(0) {
            self.add_line(line)?;
        }
        Ok(())
    }
}

pub fn cases_of(heap: Global, text: &str) -> Result<Vec<Case>, AllocError> {
    let mut cases: Vec<Case> = Vec::new(heap);
    for line in text.lines() {
        if line.starts_with("case ") {
            cases.push(Case::begin(heap, line)?)?;
        } else if let Some(case) = cases.last_mut() {
            case.add_lines(line)?;
        }
    }
    Ok(cases)
}
