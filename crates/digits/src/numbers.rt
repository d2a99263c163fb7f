// Numbers in a frame: one to eight bytes, the high one first.
ghost use Rattle.std.specs.Prelude.{◌≡◌, ℕ, ◌^◌, ◌<◌, ◌≤◌};
ghost use Rattle.digits.specs.Numbers.{field};

mod widths;

// A number that stands in `WIDTH` bytes of a frame.
pub trait FrameNumber: Sized {
    const WIDTH: usize;

    ghost WIDTH: { ℕ };

    // The number that the bits of those bytes stand for.
    ghost of_bits: { ℕ → Self };

    fn from_bits(bits: u64) -> Self
        requires { bits < 256 ^ WIDTH }
        ensures { result ≡ of_bits bits };

    ghost at_most_eight: { WIDTH ≤ 8 };
}

// Reads the field that begins at the place `at`; what lies past the frame's end is not counted.
pub fn field_at<N: FrameNumber>(frame: &[u8], at: usize) -> N
    ensures { result ≡ N.of_bits (field N.WIDTH at frame.now) }
{
    N::from_bits(bits_at(frame, at, N::WIDTH))
}

fn bits_at(frame: &[u8], at: usize, width: usize) -> u64
    requires { width ≤ 8 }
    ensures answer { result ≡ field width at frame.now }
    ensures bound { result < 256 ^ width }
{
    // Not by `skip`, which walks to the place.
    bits_of(&frame[at.min(frame.len())..], width)
}

// The first bytes as one number; as many as there are, up to the width.
fn bits_of(bytes: &[u8], width: usize) -> u64
    requires { width ≤ 8 }
    ensures answer { result ≡ field width 0 bytes.now }
    ensures bound { result < 256 ^ width }
{
    let first = bytes.iter().take(width);
    first.fold(0, |bits, byte| bits << 8 | u64::from(*byte))
}
