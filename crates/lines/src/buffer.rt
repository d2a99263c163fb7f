// The line that has not ended yet.
ghost use Rattle.std.specs.Prelude.{◌≡◌, ℕ, List, [], ◌∷◌, ◌++◌, length, take, ◌≤◌, ◌==◌};

use arrayvec::ArrayVec;
use std::marker::Model;

// A line is held by its first 65 bytes: past 64 its answer does not depend on the rest.
pub const HELD: usize = 65;

#[derive(Clone, Debug, Default, PartialEq, Eq, Drop)]
pub struct LineBuffer {
    held: ArrayVec<u8, HELD>,
}

// A contract sees the bytes held so far.
impl Model for LineBuffer {
    ghost Value = { List ℕ };

    ghost view = { λ buffer. buffer.held.items };

    ghost inverse = { λ bytes. record { held = record { items = bytes } } };
}

impl LineBuffer {
    // No byte yet.
    pub fn new() -> LineBuffer
        ensures { result ≡ [] }
    {
        LineBuffer {
            held: ArrayVec::new(),
        }
    }

    // The bytes held so far.
    pub fn line(&self) -> &[u8]
        ensures answer { result.now ≡ self.now }
        ensures bound { length result.now ≤ 65 }
    {
        &self.held
    }

    pub fn is_empty(&self) -> bool
        ensures { result ≡ (length self.now == 0) }
    {
        self.held.is_empty()
    }

    // One byte more; past 65 bytes it is let go.
    pub fn hold(&mut self, byte: u8)
        ensures { self.new ≡ take 65 (self.old ++ (byte ∷ [])) }
    {
        let _ = self.held.try_push(byte);
    }

    // The next line begins.
    pub fn clear(&mut self)
        ensures { self.new ≡ [] }
    {
        self.held.clear();
    }
}
