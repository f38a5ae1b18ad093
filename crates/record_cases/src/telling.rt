// What a source tells: its three lengths, a sum of all its words, and whether it tells nothing from
// each length on.
use crate::checksum::Checksum;
use react_compiler_hir::Source;
use std::fmt;

#[derive(Clone, Copy, Debug, PartialEq, Eq)]
pub struct Told {
    blocks: usize,
    instructions: usize,
    words: usize,
    sum: Checksum,
    absent: bool,
}

fn sum_of<S: Source>(source: &S) -> Checksum {
    let mut sum = Checksum::new();
    sum.add_rows((0..source.block_count()).map_while(|i| source.block(i)));
    sum.add_rows((0..source.instruction_count()).map_while(|i| source.instruction(i)));
    sum.add_rows((0..source.word_count()).map_while(|i| source.word(i)));
    sum
}

// Whether all three lists are absent so far behind their lengths.
fn absent_at<S: Source>(source: &S, past: usize) -> bool {
    source
        .block(source.block_count().saturating_add(past))
        .is_none()
        && source
            .instruction(source.instruction_count().saturating_add(past))
            .is_none()
        && source
            .word(source.word_count().saturating_add(past))
            .is_none()
}

pub fn tell<S: Source>(source: &S) -> Told {
    Told {
        blocks: source.block_count(),
        instructions: source.instruction_count(),
        words: source.word_count(),
        sum: sum_of(source),
        absent: [0, 1, usize::MAX]
            .iter()
            .all(|past| absent_at(source, *past)),
    }
}

impl fmt::Display for Told {
    fn fmt<W: fmt::Write>(&self, f: &mut fmt::Formatter<W>) -> fmt::Result {
        let past = if self.absent { "absent" } else { "present" };
        write!(
            f,
            "{} {} {} {} {past}",
            self.blocks, self.instructions, self.words, self.sum
        )
    }
}
