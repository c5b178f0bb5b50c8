// Reading a bounded list.
ghost use Rattle.std.specs.Prelude.{◌≡◌, length};
ghost use Rattle.std.specs.Option.{option_map};
ghost use Rattle.bounded.specs.Lists.{items_of, item_at};

use crate::lists::Bounded;

impl<T: Copy, const N: usize> Bounded<T, N> {
    // The items, in order.
    pub fn as_slice(&self) -> &[T]
        ensures { result.now ≡ items_of self.now }
    {
        match &self.places {
            Some(places) => &places[..self.len],
            None => &[],
        }
    }

    // How many items there are.
    pub fn len(&self) -> usize
        ensures { result ≡ length (items_of self.now) }
    {
        self.len
    }

    // The item of that number from 0, if there is one.
    pub fn get(&self, k: usize) -> Option<&T>
        ensures { option_map (λ x. x.now) result ≡ item_at self.now k }
    {
        self.as_slice().get(k)
    }
}
