// Answering a block of input.
ghost use Rattle.std.specs.Prelude.{◌≡◌, ◌≤◌, length, take, drop};
ghost use Rattle.registry.specs.Model.{year_in};
ghost use Rattle.lines.specs.Blocks.{Answered};

use crate::buffer::LineBuffer;
use crate::reading::read_line;
use frames::LINE_END;
use ledger::Ledger;
use registry::Book;

// How far a block was taken, and how many bytes of answers that gave.
#[derive(Clone, Copy, PartialEq, Eq, Debug)]
pub struct Progress {
    pub taken: usize,
    pub written: usize,
}

// Answers the lines that end in the block, in turn, as long as the answer space has room for one more;
// what follows the last line's end is held. The book and its ledger are two: a host may ask its ledger
// between blocks.
pub fn answer_block<L: Ledger>(
    book: &mut Book<'_>,
    ledger: &mut L,
    buffer: &mut LineBuffer,
    working: &mut [u8],
    block: &[u8],
    answers: &mut [u8],
) -> Progress
    ensures bound { (result.taken ≤ length block.now) × (result.written ≤ length answers.old) }
    ensures answered { Answered (record { line = buffer.old; year = year_in book.old; holds = L.Ledger.holding ledger.old; posts = L.Ledger.posts ledger.old }) (take result.taken block.now) (record { line = buffer.new; year = year_in book.new; holds = L.Ledger.holding ledger.new; posts = L.Ledger.posts ledger.new }) (take result.written answers.new) }
    ensures unchanged { drop result.written answers.new ≡ drop result.written answers.old }
{
    let mut written = 0;
    // Both counts are the answer.
    for (taken, byte) in block.iter().enumerate() {
        if *byte == LINE_END {
            let Ok(length) = read_line(book, ledger, buffer.line(), working, answers, written)
            else {
                return Progress { taken, written };
            };
            written += length;
            buffer.clear();
        } else {
            buffer.hold(*byte);
        }
    }
    Progress {
        taken: block.len(),
        written,
    }
}
