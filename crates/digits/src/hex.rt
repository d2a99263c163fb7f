// Lines of lowercase base-sixteen digits, two for each byte, the high one first.
// The kit's `hex` reads capitals too and judges in another order; its `encode_to_slice`, tried, takes a sixth longer.
ghost use Rattle.std.specs.Prelude.{◌≡◌, ◌+◌, ◌*◌, ◌/◌, ◌%◌, ◌<◌, ◌≤◌, true, ◌++◌, length, take, drop, is_some, is_ok, IfSome, IfOk, if◌then◌else◌};
ghost use Rattle.digits.specs.Hex.{digit, digits, is_digit, worth, first_wrong, bytes_of, reading, writing};

// Why a line writes no bytes.
#[derive(Debug, Clone, Copy, PartialEq, Eq)]
pub enum HexFault {
    // The place of the first character that is no digit.
    WrongCharacter(usize),
    // The count of digits: the last one has no fellow.
    OddCount(usize),
    // More bytes than the space given.
    NoRoom,
}

// Writes the digits of `bytes` at the start of `out`, and gives their count, as the space is lent;
// writes nothing where they do not fit.
pub fn write_hex(out: &mut [u8], bytes: &[u8]) -> Option<usize>
    ensures answer { result ≡ writing bytes.now (length out.old) }
    ensures after { out.new ≡ (if is_some result then digits bytes.now ++ drop (2 * length bytes.now) out.old else out.old) }
{
    if bytes.len() > out.len() / 2 {
        return None;
    }
    write_pairs(out, bytes);
    Some(2 * bytes.len())
}

// Writes the bytes that the digits of `line` stand for at the start of `out`, and gives their count, as
// the space is lent;
// writes nothing where it refuses.
pub fn read_hex(line: &[u8], out: &mut [u8]) -> Result<usize, HexFault>
    ensures answer { result ≡ reading line.now (length out.old) }
    ensures bound { IfOk result (λ n. n ≤ length out.old) }
    ensures front { IfOk result (λ n. take n out.new ≡ bytes_of line.now) }
    ensures after { out.new ≡ (if is_ok result then bytes_of line.now ++ drop (length line.now / 2) out.old else out.old) }
{
    let count = count_of(line, out.len())?;
    read_pairs(line, out);
    Ok(count)
}

// The place of the first character of `line` that is no digit, if there is one.
pub fn first_wrong(line: &[u8]) -> Option<usize>
    ensures answer { result ≡ first_wrong line.now }
    ensures bound { IfSome result (λ place. place < length line.now) }
{
    line.iter().position(|c| !is_digit(*c))
}

fn count_of(line: &[u8], room: usize) -> Result<usize, HexFault>
    ensures { result ≡ reading line.now room }
{
    if let Some(place) = first_wrong(line) {
        return Err(HexFault::WrongCharacter(place));
    }
    if line.len() % 2 == 1 {
        return Err(HexFault::OddCount(line.len()));
    }
    let count = line.len() / 2;
    if count > room {
        return Err(HexFault::NoRoom);
    }
    Ok(count)
}

// By index: after `out.chunks_exact_mut(2).zip(bytes)`, which was tried, a proof knows no element of `out`.
fn write_pairs(out: &mut [u8], bytes: &[u8])
    requires { 2 * length bytes.now ≤ length out.old }
    ensures { out.new ≡ digits bytes.now ++ drop (2 * length bytes.now) out.old }
{
    for (i, byte) in bytes.iter().enumerate() {
        (out[2 * i], out[2 * i + 1]) = pair_of(*byte);
    }
}

// By index: after `out.iter_mut().zip(pairs)`, which was tried, a proof knows no element of `out`.
fn read_pairs(line: &[u8], out: &mut [u8])
    requires sound { first_wrong line.now ≡ None }
    requires room { length line.now ≤ 2 * length out.old }
    ensures { out.new ≡ bytes_of line.now ++ drop (length line.now / 2) out.old }
{
    let (pairs, _) = line.as_chunks::<2>();
    for (i, [high, low]) in pairs.iter().enumerate() {
        out[i] = byte_of(*high, *low);
    }
}

fn pair_of(byte: u8) -> (u8, u8)
    ensures { result ≡ (digit (byte / 16), digit (byte % 16)) }
{
    (digit_of(byte / 16), digit_of(byte % 16))
}

fn byte_of(high: u8, low: u8) -> u8
    requires high { is_digit high ≡ true }
    requires low { is_digit low ≡ true }
    ensures { result ≡ 16 * worth high + worth low }
{
    16 * worth_of(high) + worth_of(low)
}

fn digit_of(value: u8) -> u8
    requires { value < 16 }
    ensures { result ≡ digit value }
{
    if value < 10 {
        b'0' + value
    } else {
        b'a' + (value - 10)
    }
}

fn worth_of(c: u8) -> u8
    requires { is_digit c ≡ true }
    ensures answer { result ≡ worth c }
    ensures bound { result < 16 }
{
    if c <= b'9' { c - b'0' } else { c - b'a' + 10 }
}

fn is_digit(c: u8) -> bool
    ensures { result ≡ is_digit c }
{
    c.is_ascii_digit() || matches!(c, b'a'..=b'f')
}
