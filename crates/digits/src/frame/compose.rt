// Fields one after another.
ghost use Rattle.std.specs.Prelude.{◌≡◌, ◌+◌, ◌≤◌, ◌++◌, length, is_some, if◌then◌else◌, nat_le};
ghost use Rattle.digits.specs.Frames.{field_bytes, composed, fitting};

use crate::frame::{Field, Frame, LONGEST};

impl Frame {
    // The fields in their order; an empty frame where they take more than its room. No `Option`: the fields
    // of every answer fit, and a caller would have to answer something for none.
    pub fn of(fields: &[Field]) -> Frame
        ensures { result ≡ fitting (composed fields.now) }
    {
        let mut frame = Frame::default();
        for field in fields {
            if frame.push(*field).is_none() {
                return Frame::default();
            }
        }
        frame
    }

    pub fn bytes(&self) -> &[u8]
        ensures answer { result.now ≡ self.now }
        ensures bound { length result.now ≤ 30 }
    {
        &self.bytes[0..self.len]
    }

    fn push(&mut self, field: Field) -> Option<()>
        ensures answer { is_some result ≡ nat_le (length self.old + length (field_bytes field)) 30 }
        ensures after { self.new ≡ (if is_some result then self.old ++ field_bytes field else self.old) }
    {
        match field {
            Field::Byte(n) => self.extend(&[n]),
            Field::Two(n) => self.extend(&n.to_be_bytes()),
            Field::Four(n) => self.extend(&n.to_be_bytes()),
            Field::Eight(n) => self.extend(&n.to_be_bytes()),
            Field::SignedFour(n) => self.extend(&n.to_be_bytes()),
            Field::SignedEight(n) => self.extend(&n.to_be_bytes()),
        }
    }

    // Puts the bytes behind the others, if there is room.
    fn extend(&mut self, more: &[u8]) -> Option<()>
        ensures answer { is_some result ≡ nat_le (length self.old + length more.now) 30 }
        ensures after { self.new ≡ (if is_some result then self.old ++ more.now else self.old) }
    {
        let start = self.len;
        if more.len() > LONGEST - start {
            return None;
        }
        let end = start + more.len();
        self.bytes[start..end].copy_from_slice(more);
        self.len = end;
        Some(())
    }
}
