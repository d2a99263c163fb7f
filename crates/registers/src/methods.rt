// The register's methods. Each says that the places stay as many and the same memory: no type ties what
// was to what is.
ghost use Rattle.std.specs.Prelude.{◌≡◌, ◌<◌, ◌≤◌, [], length, is_ok, is_some, if◌then◌else◌, MatchResult};
ghost use Rattle.std.specs.List.{AllWithin};
ghost use Rattle.registers.specs.Held.{rows, room, entering};
ghost use Rattle.registers.specs.Places.{Stands, Enters};
ghost use Rattle.registers.specs.Rows.{lookup, inserted, without, replaced};

use crate::{Keyed, Register, RegisterFault};
use places::Places;

impl<'a, R: Keyed> Register<'a, R> {
    // No record, and every place free.
    pub fn new(places: &'a mut [R]) -> Register<'a, R>
        ensures after { rows result ≡ [] }
        ensures unchanged { room result ≡ length places.old }
        ensures lent { result.places.lent.ghost_name ≡ places.entry.ghost_name }
    {
        Register {
            places: Places::new(places),
        }
    }

    // How many records there are.
    pub fn len(&self) -> usize
        ensures answer { result ≡ length (rows self.now) }
        ensures bound { result ≤ room self.now }
    {
        self.places.len()
    }

    // The records, in their order.
    pub fn records(&self) -> &[R]
        ensures answer { result.now ≡ rows self.now }
        ensures bound { length result.now ≤ room self.now }
    {
        self.places.as_slice()
    }

    // Whether a record has the number.
    pub fn contains(&self, number: u16) -> bool
        ensures { result ≡ is_some (lookup R.key number (rows self.now)) }
    {
        self.seek(number).is_ok()
    }

    // The record with the number.
    pub fn find(&self, number: u16) -> Option<R>
        ensures { result ≡ lookup R.key number (rows self.now) }
    {
        let at = self.seek(number).ok()?;
        Some(self.records()[at])
    }

    // Puts the record in its place, unless its number is in use or no place is free.
    pub fn insert(&mut self, record: R) -> Result<(), RegisterFault>
        ensures answer { result ≡ entering R.key «record» (room self.old) (rows self.old) }
        ensures after { rows self.new ≡ (if is_ok result then inserted R.key «record» (rows self.old) else rows self.old) }
        ensures unchanged { room self.new ≡ room self.old }
        ensures lent { self.new.places.lent.ghost_name ≡ self.old.places.lent.ghost_name }
    {
        let Err(at) = self.seek(record.number()) else {
            return Err(RegisterFault::InUse);
        };
        if self.places.is_full() {
            return Err(RegisterFault::Full);
        }
        self.places.insert(at, record);
        Ok(())
    }

    // Takes the record with the number out, so that its place serves again.
    pub fn remove(&mut self, number: u16) -> Option<R>
        ensures answer { result ≡ lookup R.key number (rows self.old) }
        ensures after { rows self.new ≡ without R.key number (rows self.old) }
        ensures unchanged { room self.new ≡ room self.old }
        ensures lent { self.new.places.lent.ghost_name ≡ self.old.places.lent.ghost_name }
    {
        let at = self.seek(number).ok()?;
        Some(self.places.remove(at))
    }

    // Puts the record in the place of the one with its number, which it hands back.
    pub fn replace(&mut self, record: R) -> Option<R>
        ensures answer { result ≡ lookup R.key (R.key «record») (rows self.old) }
        ensures after { rows self.new ≡ replaced R.key «record» (rows self.old) }
        ensures unchanged { room self.new ≡ room self.old }
        ensures lent { self.new.places.lent.ghost_name ≡ self.old.places.lent.ghost_name }
    {
        let at = self.seek(record.number()).ok()?;
        Some(self.places.replace(at, record))
    }

    // Takes every record out.
    pub fn clear(&mut self)
        ensures after { rows self.new ≡ [] }
        ensures unchanged { room self.new ≡ room self.old }
        ensures lent { self.new.places.lent.ghost_name ≡ self.old.places.lent.ghost_name }
    {
        self.places.clear();
    }

    // The place of the record with the number, or the one that it would take.
    fn seek(&self, number: u16) -> Result<usize, usize>
        ensures { MatchResult result (λ i. Stands R.key number i (rows self.now)) (λ i. Enters R.key number i (rows self.now)) }
    {
        let (start, end) = self.span(number);
        let found = self.records()[start..end].binary_search_by_key(&number, |r| r.number());
        match found {
            Ok(i) => Ok(start + i),
            Err(i) => Err(start + i),
        }
    }

    // The span of places in which to look for the number: the records ahead of it are below, those behind it
    // above. Its end doubles until the number is reached, so one near the front is soon found.
    fn span(&self, number: u16) -> (usize, usize)
        ensures within { (result.0 ≤ result.1) × (result.1 ≤ length (rows self.now)) }
        ensures ahead { AllWithin (λ r. R.key r < number) (rows self.now) 0 result.0 }
        ensures behind { AllWithin (λ r. number < R.key r) (rows self.now) result.1 (length (rows self.now)) }
    {
        let records = self.records();
        let mut start = 0;
        let mut end = records.len().min(1);
        while end < records.len() && records[end - 1].number() < number {
            start = end;
            end += end.min(records.len() - end);
        }
        (start, end)
    }
}
