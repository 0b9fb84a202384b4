//! A row of numbers with the place of each.

ghost use Rattle.std.specs.Prelude.{◌≡◌, ℕ, ◌+◌, ◌<◌, ◌≤◌, length, ◌∷◌, [], ◌++◌, vec_len, vec_capacity};
ghost use Rattle.mal_heap.specs.Rows.{IsRow, IsSwap, IsBeside, inside};

/// The numbers below the length of the row, in any order, and the place of each.
#[derive(Drop)]
pub struct Row {
    pub items: Vec<u32>,
    pub places: Vec<u32>,
}

impl Row {
    /// Exchanges the items at two places.
    pub fn swap(&mut self, i: u32, j: u32)
        requires row { IsRow self.old.items.items self.old.places.items }
        requires first { i < length self.old.items.items }
        requires second { j < length self.old.items.items }
        ensures row { IsRow self.new.items.items self.new.places.items }
        ensures swapped { IsSwap self.old.items.items self.new.items.items i j }
        ensures inside { (count : ℕ) → IsBeside i j count → inside count self.new.places.items ≡ inside count self.old.places.items }
        ensures long { length self.new.places.items ≡ length self.old.places.items }
        ensures items { vec_capacity self.new.items ≡ vec_capacity self.old.items }
        ensures places { vec_capacity self.new.places ≡ vec_capacity self.old.places }
    {
        let first = self.items[i as usize];
        let second = self.items[j as usize];
        self.items[i as usize] = second;
        self.items[j as usize] = first;
        self.places[first as usize] = j;
        self.places[second as usize] = i;
    }
}
