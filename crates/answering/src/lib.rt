// Answers input as it comes: what is written here is taken as lines, and each line is answered on the
// output once it ends.

#![tactic(auto)]

ghost use Rattle.std.specs.Prelude.{◌≡◌, ℕ, ◌≢◌, List, [], take, None, IfOk, IfErr, OnOk};
ghost use Rattle.std.specs.Io.KnownBytes.{Appends, Keeps, WriteAppends};
ghost use Rattle.std.specs.Io.{WritesAtMost};
ghost use Rattle.std.specs.IoError.{error_kind};
ghost use Rattle.std.specs.declared.io.ErrorKind.TheVariants.{Interrupted};
ghost use Rattle.registry.specs.Model.{year_in};
ghost use Rattle.lines.specs.Blocks.{Answered};
ghost use Rattle.answering.specs.Standing.{standing, AnsweredTo, last_line, Finished};

use ledger::Ledger;
use lines::{LineBuffer, WORKING_SPACE, answer_block, read_line};
use registry::Book;
use std::io;
use std::io::Write;

// Bytes of answers written at a time.
const ANSWERS: usize = 65_536;

// A book and its ledger, with the memory for lines and answers.
#[derive(Drop)]
pub struct Answering<'a, L: Drop, W: Drop> {
    book: Book<'a>,
    ledger: L,
    output: W,
    buffer: LineBuffer,
    working: [u8; WORKING_SPACE],
    answers: [u8; ANSWERS],
}

impl<'a, L: Ledger + Drop, W: Write + Drop> Answering<'a, L, W> {
    // No line so far; book, ledger and output as they are given.
    pub fn new(book: Book<'a>, ledger: L, output: W) -> Answering<'a, L, W>
        ensures standing { standing L.Ledger.holding L.Ledger.posts result ≡ record { line = []; year = year_in book.entry; holds = L.Ledger.holding ledger; posts = L.Ledger.posts ledger } }
        ensures output { result.output ≡ output }
    {
        Answering {
            book,
            ledger,
            output,
            buffer: LineBuffer::new(),
            working: [0; WORKING_SPACE],
            answers: [0; ANSWERS],
        }
    }

    // Answers the last line, if the input ended without its end.
    pub fn finish(&mut self) -> io::Result<()>
        ensures answer { OnOk result (Appends (W.Write.contents self.old.output) (W.Write.contents self.new.output) (last_line (standing L.Ledger.holding L.Ledger.posts self.old))) }
        ensures finished { Finished (standing L.Ledger.holding L.Ledger.posts self.old) (standing L.Ledger.holding L.Ledger.posts self.new) }
    {
        if self.buffer.is_empty() {
            return Ok(());
        }
        let read = read_line(
            &mut self.book,
            &mut self.ledger,
            self.buffer.line(),
            &mut self.working,
            &mut self.answers,
            0,
        );
        // Before the output may fail: a call is made once.
        self.buffer.clear();
        if let Ok(length) = read {
            self.output.write_all(&self.answers[..length])?;
        }
        Ok(())
    }
}

impl<L: Ledger + Drop, W: Write + Drop> Write for Answering<'_, L, W> {
    // Takes as much of the block as the answer space has room to answer.
    fn write(&mut self, block: &[u8]) -> io::Result<usize>
        ensures bound { WritesAtMost result block.now }
        ensures bytes { WriteAppends None None result block.now }
        ensures once { IfErr result (λ error. error_kind error ≢ Interrupted) }
        ensures called { (taken : ℕ) × (answers : List ℕ) × Answered (standing L.Ledger.holding L.Ledger.posts self.old) (take taken block.now) (standing L.Ledger.holding L.Ledger.posts self.new) answers }
        ensures answered { IfOk result (λ taken. AnsweredTo (standing L.Ledger.holding L.Ledger.posts self.old) (take taken block.now) (standing L.Ledger.holding L.Ledger.posts self.new) (W.Write.contents self.old.output) (W.Write.contents self.new.output)) }
    {
        let progress = answer_block(
            &mut self.book,
            &mut self.ledger,
            &mut self.buffer,
            &mut self.working,
            block,
            &mut self.answers,
        );
        self.output
            .write_all(&self.answers[..progress.written])
            .map_err(final_error)?;
        Ok(progress.taken)
    }

    fn flush(&mut self) -> io::Result<()>
        ensures bytes { Keeps None None }
        ensures output { Keeps (W.Write.contents self.old.output) (W.Write.contents self.new.output) }
        ensures unchanged { standing L.Ledger.holding L.Ledger.posts self.new ≡ standing L.Ledger.holding L.Ledger.posts self.old }
    {
        self.output.flush()
    }
}

// The library writes a block again after an interrupted write, and the calls of this block are made.
fn final_error(error: io::Error) -> io::Error
    ensures { error_kind result ≢ Interrupted }
{
    if error.kind() == io::ErrorKind::Interrupted {
        return io::Error::from(io::ErrorKind::Other);
    }
    error
}
