// From a line to the call that its frame writes.
ghost use Rattle.std.specs.Prelude.{◌≡◌, ◌≤◌, length, take, Ok, Err, MatchResult};
ghost use Rattle.frames.specs.Frames.{frame_of, call_of, heard, Small, line_fault};

use crate::fault::LineFault;
use crate::kind::Kind;
use digits::hex::{HexFault, read_hex};
use rules::Call;

// A line has at most 64 characters, so a frame at most 32 bytes.
const LONGEST_LINE: usize = 64;

// The call that a line writes. Its bytes are put at the start of the working space: 32 bytes at least and
// no `&mut [u8; 32]`, since callers lend what they have.
pub fn read_call(line: &[u8], working: &mut [u8]) -> Result<Call, LineFault>
    requires { 32 ≤ length working.old }
    ensures { result ≡ heard line.now }
{
    let count = read_frame(line, working)?;
    call_in(&working[..count])
}

// Puts the bytes that the digits of a line write at the start of the working space, and gives their
// count, as the space is lent: 32 bytes at least, as in `read_call`.
fn read_frame(line: &[u8], working: &mut [u8]) -> Result<usize, LineFault>
    requires { 32 ≤ length working.old }
    ensures { MatchResult result (λ n. (n ≤ 32) × (frame_of line.now ≡ Ok (take n working.new))) (λ fault. frame_of line.now ≡ Err fault) }
{
    if line.len() > LONGEST_LINE {
        return Err(LineFault::TooLong);
    }
    read_hex(line, working).map_err(line_fault)
}

// A fault of the digits of a line that is not too long. No `From`: a place past 64 has no byte, and `From`
// takes no condition.
fn line_fault(fault: HexFault) -> LineFault
    requires { Small fault }
    ensures { result ≡ line_fault fault }
{
    match fault {
        HexFault::WrongCharacter(index) => LineFault::WrongCharacter(index as u8),
        HexFault::OddCount(count) => LineFault::OddCount(count as u8),
        HexFault::NoRoom => LineFault::TooLong,
    }
}

// The call that the bytes of a frame write.
fn call_in(frame: &[u8]) -> Result<Call, LineFault>
    requires { length frame.now ≤ 32 }
    ensures { result ≡ call_of frame.now }
{
    let first = frame.first().ok_or(LineFault::NoBytes)?;
    let kind = Kind::try_from(*first)?;
    if frame.len() != kind.frame_length() {
        return Err(LineFault::WrongLength(frame.len() as u8));
    }
    Ok(kind.call(frame))
}
