// From an answer to its line.
ghost use Rattle.std.specs.Prelude.{◌≡◌, ◌+◌, ◌≤◌, length};
ghost use Rattle.frames.specs.Kinds.{kind_of_call};
ghost use Rattle.frames.specs.Answers.{answer_bytes, refusal_bytes, reply_bytes, line_of, over};

use crate::fault::LineFault;
use crate::kind::Kind;
use digits::frame::{Field, Frame};
use digits::hex::write_hex;
use rules::{Call, Refusal, Reply, Settlement, Statement};

// A line's last byte.
pub const LINE_END: u8 = 10;

// The kind byte of a call.
pub fn kind_of(call: Call) -> u8
    ensures { result ≡ kind_of_call call }
{
    Kind::from(call) as u8
}

// The bytes of an answer: an accepted call's kind and results, or a refusal. The kind is the byte of its
// line: a `Kind` would only be turned into that byte again.
pub fn answer_frame(said: Result<(u8, Reply), LineFault>) -> Frame
    ensures { result ≡ answer_bytes said }
{
    match said {
        Ok((kind, reply)) => reply_frame(kind, reply),
        Err(fault) => refusal_frame(Refusal::from(fault)),
    }
}

// Writes the digits of a frame and the line's end over the answer space from `at` on, and gives their count.
pub fn write_line(answers: &mut [u8], at: usize, frame: &Frame) -> usize
    requires { at + 61 ≤ length answers.old }
    ensures after { answers.new ≡ over answers.old at (line_of frame.now) }
    ensures answer { result ≡ length (line_of frame.now) }
    ensures bound { result ≤ 61 }
{
    let bytes = frame.bytes();
    let end = at + 2 * bytes.len();
    let _ = write_hex(&mut answers[at..end], bytes);
    answers[end] = LINE_END;
    2 * bytes.len() + 1
}

// No `From`: the kind is the call's. It is the byte of the line that is composed, and no `Kind`.
fn reply_frame(kind: u8, reply: Reply) -> Frame
    ensures { result ≡ reply_bytes kind reply }
{
    match reply {
        Reply::Done => Frame::of(&[Field::Byte(0), Field::Byte(kind)]),
        Reply::Level(guarantees) | Reply::Holding(guarantees) => Frame::of(&[
            Field::Byte(0),
            Field::Byte(kind),
            Field::Four(guarantees),
        ]),
        Reply::Returned(offers) => Frame::of(&[
            Field::Byte(0),
            Field::Byte(kind),
            Field::Two(offers),
        ]),
        Reply::Figures(figures) => figures_frame(kind, figures),
        Reply::Stated(statement) => statement_frame(kind, statement),
    }
}

// The kind is a byte, as in `reply_frame`.
fn figures_frame(kind: u8, figures: Settlement) -> Frame
    ensures { result ≡ reply_bytes kind (Reply.Figures figures) }
{
    Frame::of(&[
        Field::Byte(0),
        Field::Byte(kind),
        Field::Four(figures.paid_price),
        Field::Eight(figures.collected),
        Field::Eight(figures.paid),
        Field::Eight(figures.balance),
    ])
}

// The kind is a byte, as in `reply_frame`.
fn statement_frame(kind: u8, statement: Statement) -> Frame
    ensures { result ≡ reply_bytes kind (Reply.Stated statement) }
{
    Frame::of(&[
        Field::Byte(0),
        Field::Byte(kind),
        Field::Four(statement.holding),
        Field::Four(statement.obligation),
        Field::SignedFour(statement.gap),
        Field::SignedEight(statement.amount),
    ])
}

fn refusal_frame(refusal: Refusal) -> Frame
    ensures { result ≡ refusal_bytes refusal }
{
    Frame::of(&[
        Field::Byte(refusal.layer),
        Field::Byte(refusal.number),
        Field::Two(refusal.place),
    ])
}
