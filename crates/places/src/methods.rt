// A list's methods. Each says that the places stay as many and the same memory: no type ties what was to
// what is.
ghost use Rattle.std.specs.Prelude.{◌≡◌, ◌<◌, ◌≤◌, [], ◌∷◌, ◌++◌, ◌==◌, length, slice_index_or, slice_set};
ghost use Rattle.std.specs.List.{insert as opened, remove as closed};
ghost use Rattle.places.specs.Held.{items, room};

use crate::Places;

impl<'a, T: Copy> Places<'a, T> {
    // No item, and every place free.
    pub fn new(lent: &'a mut [T]) -> Places<'a, T>
        ensures after { items result ≡ [] }
        ensures unchanged { result.lent.now ≡ lent.old }
        ensures lent { result.lent.ghost_name ≡ lent.entry.ghost_name }
    {
        Places { lent, used: 0 }
    }

    // How many items there are.
    pub fn len(&self) -> usize
        ensures answer { result ≡ length (items self.now) }
        ensures bound { result ≤ room self.now }
    {
        self.as_slice().len()
    }

    // How many places are lent.
    pub fn capacity(&self) -> usize
        ensures { result ≡ room self.now }
    {
        self.lent.len()
    }

    // Whether every place is taken.
    pub fn is_full(&self) -> bool
        ensures { result ≡ (length (items self.now) == room self.now) }
    {
        self.len() == self.capacity()
    }

    // The items, in their order.
    pub fn as_slice(&self) -> &[T]
        ensures answer { result.now ≡ items self.now }
        ensures bound { length result.now ≤ room self.now }
    {
        &self.lent[..self.used]
    }

    // Puts the item behind the others.
    pub fn push(&mut self, item: T)
        requires free { length (items self.old) < room self.old }
        ensures after { items self.new ≡ items self.old ++ item ∷ [] }
        ensures unchanged { room self.new ≡ room self.old }
        ensures lent { self.new.lent.ghost_name ≡ self.old.lent.ghost_name }
    {
        self.lent[self.used] = item;
        self.used += 1;
    }

    // Puts the item in at `at`, ahead of those from there on.
    pub fn insert(&mut self, at: usize, item: T)
        requires free { length (items self.old) < room self.old }
        requires at { at ≤ length (items self.old) }
        ensures after { items self.new ≡ opened (items self.old) at item }
        ensures unchanged { room self.new ≡ room self.old }
        ensures lent { self.new.lent.ghost_name ≡ self.old.lent.ghost_name }
    {
        self.push(item);
        self.lent[at..self.used].rotate_right(1);
    }

    // Takes out the item at `at`; those behind it move up.
    pub fn remove(&mut self, at: usize) -> T
        requires at { at < length (items self.old) }
        ensures answer { result ≡ slice_index_or (items self.old) at result }
        ensures after { items self.new ≡ closed (items self.old) at }
        ensures unchanged { room self.new ≡ room self.old }
        ensures lent { self.new.lent.ghost_name ≡ self.old.lent.ghost_name }
    {
        let item = self.lent[at];
        self.lent[at..self.used].rotate_left(1);
        self.used -= 1;
        item
    }

    // Puts the item in the place of the one at `at`, which it hands back.
    pub fn replace(&mut self, at: usize, item: T) -> T
        requires at { at < length (items self.old) }
        ensures answer { result ≡ slice_index_or (items self.old) at result }
        ensures after { items self.new ≡ slice_set (items self.old) at item }
        ensures unchanged { room self.new ≡ room self.old }
        ensures lent { self.new.lent.ghost_name ≡ self.old.lent.ghost_name }
    {
        let old = self.lent[at];
        self.lent[at] = item;
        old
    }

    // Takes every item out.
    pub fn clear(&mut self)
        ensures after { items self.new ≡ [] }
        ensures unchanged { room self.new ≡ room self.old }
        ensures lent { self.new.lent.ghost_name ≡ self.old.lent.ghost_name }
    {
        self.used = 0;
    }
}
