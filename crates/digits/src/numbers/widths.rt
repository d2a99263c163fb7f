// The numbers of a frame by their width in bytes; a signed one stands in two's complement.
ghost use Rattle.std.specs.Int.{cast_signed, w16, w32, w64};
ghost use Rattle.std.proofs.Common.{lit≤};

use crate::numbers::FrameNumber;

impl FrameNumber for u8 {
    const WIDTH: usize = 1;

    ghost WIDTH = { 1 };

    ghost of_bits = { λ bits. bits };

    ghost at_most_eight = { lit≤ tt };

    fn from_bits(bits: u64) -> u8 {
        bits as u8
    }
}

impl FrameNumber for u16 {
    const WIDTH: usize = 2;

    ghost WIDTH = { 2 };

    ghost of_bits = { λ bits. bits };

    ghost at_most_eight = { lit≤ tt };

    fn from_bits(bits: u64) -> u16 {
        bits as u16
    }
}

impl FrameNumber for u32 {
    const WIDTH: usize = 4;

    ghost WIDTH = { 4 };

    ghost of_bits = { λ bits. bits };

    ghost at_most_eight = { lit≤ tt };

    fn from_bits(bits: u64) -> u32 {
        bits as u32
    }
}

impl FrameNumber for u64 {
    const WIDTH: usize = 8;

    ghost WIDTH = { 8 };

    ghost of_bits = { λ bits. bits };

    ghost at_most_eight = { lit≤ tt };

    fn from_bits(bits: u64) -> u64 {
        bits
    }
}

impl FrameNumber for i16 {
    const WIDTH: usize = u16::WIDTH;

    ghost WIDTH = { 2 };

    ghost of_bits = { cast_signed w16 };

    ghost at_most_eight = { lit≤ tt };

    fn from_bits(bits: u64) -> i16 {
        u16::from_bits(bits).cast_signed()
    }
}

impl FrameNumber for i32 {
    const WIDTH: usize = u32::WIDTH;

    ghost WIDTH = { 4 };

    ghost of_bits = { cast_signed w32 };

    ghost at_most_eight = { lit≤ tt };

    fn from_bits(bits: u64) -> i32 {
        u32::from_bits(bits).cast_signed()
    }
}

impl FrameNumber for i64 {
    const WIDTH: usize = u64::WIDTH;

    ghost WIDTH = { 8 };

    ghost of_bits = { cast_signed w64 };

    ghost at_most_eight = { lit≤ tt };

    fn from_bits(bits: u64) -> i64 {
        bits.cast_signed()
    }
}
