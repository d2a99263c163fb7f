// Reading one line.
ghost use Rattle.std.specs.Prelude.{◌≡◌, ℕ, ◌+◌, ◌≤◌, length, replicate, IfOk};
ghost use Rattle.law.specs.Law.{Past};
ghost use Rattle.law.specs.Told.{Told};
ghost use Rattle.frames.specs.Frames.{heard};
ghost use Rattle.registry.specs.Model.{year_in};
ghost use Rattle.lines.specs.Lines.{spaces_fine, said, Heard, GoesOn, Reading};

use frames::{LineFault, answer_frame, kind_of, read_call, write_line};
use ledger::Ledger;
use registry::Book;
use rules::Reply;

// The longest frame, in bytes.
pub const WORKING_SPACE: usize = 32;
// The longest answer line: 30 bytes in digits, and byte 10.
const ANSWER_SPACE: usize = 61;

// Lent working bytes, which hold zeros once it is let go.
struct WorkingSpace<'a> {
    bytes: &'a mut [u8],
}

impl Drop for WorkingSpace<'_> {
    fn drop(self)
        ensures { self.exit.0.now ≡ replicate (length self.entry.bytes.now) 0 }
    {
        self.bytes.fill(0);
        let WorkingSpace { bytes: _ } = self;
    }
}

// Reads a line, makes its call on the book and the ledger, and writes the answer line into the answer
// space from `at` on. Gives the length of the answer line. Book and ledger are two, since a host may ask
// its ledger between calls.
pub fn read_line<L: Ledger>(
    book: &mut Book<'_>,
    ledger: &mut L,
    line: &[u8],
    working: &mut [u8],
    answers: &mut [u8],
    at: usize,
) -> Result<usize, LineFault>
    ensures bound { IfOk result (λ n. at + n ≤ length answers.old) }
    ensures answer { Reading (spaces_fine working.old answers.old at) line.now working.old working.new answers.old answers.new at result (year_in book.old) (year_in book.new) (L.Ledger.holding ledger.old) (L.Ledger.holding ledger.new) (L.Ledger.posts ledger.old) (L.Ledger.posts ledger.new) }
{
    if working.len() < WORKING_SPACE
        || answers.len() < ANSWER_SPACE
        || at > answers.len() - ANSWER_SPACE
    {
        return Err(LineFault::NoSpace);
    }
    let said = hear(book, ledger, line, working);
    Ok(write_line(answers, at, &answer_frame(said)))
}

// Makes the call that a line writes, and gives its kind byte, as `answer_frame` takes it, with the reply.
// The working space is cleared on every way out; it is 32 bytes at least and no `&mut [u8; 32]`, since the
// host lends what it has. Book and ledger are two, as in `read_line`.
fn hear<L: Ledger>(
    book: &mut Book<'_>,
    ledger: &mut L,
    line: &[u8],
    working: &mut [u8],
) -> Result<(u8, Reply), LineFault>
    requires { 32 ≤ length working.old }
    ensures answer { result ≡ said line.now (year_in book.old) (L.Ledger.holding ledger.old) (L.Ledger.posts ledger.old) }
    ensures cleared { working.new ≡ replicate (length working.old) 0 }
    ensures heard { Heard (heard line.now) (year_in book.old) (year_in book.new) (L.Ledger.holding ledger.old) (L.Ledger.holding ledger.new) (L.Ledger.posts ledger.old) (L.Ledger.posts ledger.new) }
    ensures law { (start : ℕ → ℕ) (p : Past) → Told start p (year_in book.old) (L.Ledger.holding ledger.old) (L.Ledger.posts ledger.old) → GoesOn (heard line.now) start p (year_in book.old) (year_in book.new) (L.Ledger.holding ledger.old) (L.Ledger.holding ledger.new) (L.Ledger.posts ledger.old) (L.Ledger.posts ledger.new) }
{
    let space = WorkingSpace { bytes: working };
    let call = read_call(line, space.bytes)?;
    let reply = book.call(ledger, call)?;
    Ok((kind_of(call), reply))
}
