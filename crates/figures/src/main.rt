// Works out levels, steps and obligations alone, one for each line of a stored table: what an answer line
// of the book cannot reach.
// A line is 24 bytes in digits: a kind (1 level, 2 step, 3 obligation), its fields, zeros.

#![tactic(auto)]

use curves::{OutOfRange, Step, Supply, added, level, obligation};
use digits::frame::{Field, Frame, LONGEST};
use digits::hex::{read_hex, write_hex};
use digits::numbers::field_at;
use std::io::Write;
use std::{env, fs, io};

// The digits of a line, and the line with its end.
const DIGITS: usize = 48;

const LINE: usize = DIGITS + 1;

// The digits of the longest frame.
const ANSWER: usize = 2 * LONGEST;

// A figure behind byte 0, or behind byte 1 the field that is out of its range.
fn framed(answer: Result<Field, OutOfRange>) -> Frame {
    match answer {
        Ok(figure) => Frame::of(&[Field::Byte(0), figure]),
        Err(fault) => Frame::of(&[Field::Byte(1), Field::Byte(fault.field)]),
    }
}

// Three kinds, told apart once: an enum of them would be made here and matched here.
fn figure(frame: &[u8]) -> Result<Field, OutOfRange> {
    match field_at::<u8>(frame, 0) {
        1 => level_alone(frame),
        2 => step_alone(frame),
        _ => obligation_alone(frame),
    }
}

fn level_alone(frame: &[u8]) -> Result<Field, OutOfRange> {
    let supply = Supply {
        power: field_at(frame, 2),
        hours: field_at(frame, 6),
        days: field_at(frame, 7),
    };
    Ok(Field::Four(level(field_at(frame, 1), supply)?))
}

fn step_alone(frame: &[u8]) -> Result<Field, OutOfRange> {
    let step = Step {
        sort: field_at(frame, 1),
        metered: field_at(frame, 2),
        shed: field_at(frame, 6),
        gradient: field_at(frame, 10),
        coefficient: field_at(frame, 14),
        real: field_at(frame, 16),
        extreme: field_at(frame, 18),
    };
    Ok(Field::SignedEight(added(step)?))
}

fn obligation_alone(frame: &[u8]) -> Result<Field, OutOfRange> {
    let guarantees = obligation(field_at(frame, 1), field_at(frame, 3), field_at(frame, 5))?;
    Ok(Field::Eight(guarantees))
}

fn answer_all(rt: &HostRuntime, table: &[u8]) -> io::Result<()> {
    let mut output = rt.stdout();
    let (lines, _) = table.as_chunks::<LINE>();
    for line in lines {
        let mut bytes = [0; DIGITS / 2];
        let mut digits = [0; ANSWER];
        let _ = read_hex(&line[..DIGITS], &mut bytes);
        let frame = framed(figure(&bytes));
        let count = write_hex(&mut digits, frame.bytes()).unwrap_or(0);
        output.write_all(&digits[..count.min(ANSWER)])?;
        output.write_all(b"\n")?;
    }
    Ok(())
}

fn main(rt: HostRuntime) -> anyhow::Result<()> {
    for name in env::args(&rt)?.skip(1) {
        let table = fs::read(&rt, name.as_str())?;
        answer_all(&rt, table.as_slice())?;
    }
    Ok(())
}
