// The bytes of an answer, composed field by field.
ghost use Rattle.std.specs.Prelude.{◌≡◌, ℕ, ◌-◌, ◌≤◌, List, ◌++◌, length, take, drop, replicate};
ghost use Rattle.std.proofs.Common.{arith, ap, ap₂, sym, ◌∙◌};
ghost use lib.Seq.{length-take-le};
ghost use Rattle.std.proofs.lemmas.List.{take-append-drop};

mod compose;

use std::marker::Model;

// The longest answer: two bytes, a price of four and three sums of eight.
pub const LONGEST: usize = 30;

// The first `len` bytes are the frame, and zeros follow. No `ArrayVec`: a frame is `Copy`, which an `ArrayVec` is not.
#[derive(Debug, Default, Clone, Copy, PartialEq, Eq)]
pub struct Frame {
    bytes: [u8; LONGEST],
    len: usize,
}

// A contract sees the bytes that stand in a frame.
impl Model for Frame {
    ghost Value = { List ℕ };

    ghost view = { λ frame. take frame.len frame.bytes };

    ghost invariant = { λ frame. (frame.len ≤ 30) × ((length frame.bytes ≡ 30) × (drop frame.len frame.bytes ≡ replicate (30 - frame.len) 0)) };

    ghost inverse = { λ written. record { bytes = written ++ replicate (30 - length written) 0; len = length written } };

    ghost inverse_ok = { λ frame told.
        let count : length (take frame.len frame.bytes) ≡ frame.len = length-take-le frame.len frame.bytes (omega (arith, told.0, told.1.0)) in
        let zeros = ap (λ len. take frame.len frame.bytes ++ replicate (30 - len) 0) count ∙ ap (λ rest. take frame.len frame.bytes ++ rest) (sym told.1.1) in
        ap₂ (λ bytes len. record { bytes = bytes; len = len }) (zeros ∙ take-append-drop frame.len frame.bytes) count };
}

// A number in a frame, by its width in bytes; a signed one stands in two's complement.
#[derive(Debug, Clone, Copy, PartialEq, Eq)]
pub enum Field {
    Byte(u8),
    Two(u16),
    Four(u32),
    Eight(u64),
    SignedFour(i32),
    SignedEight(i64),
}
