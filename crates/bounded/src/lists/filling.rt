// Making and filling a bounded list.
ghost use Rattle.std.specs.Prelude.{◌≡◌, [], ◌∷◌, ◌++◌, length, replicate, if◌then◌else◌, Some, nat_lt, is_ok};
ghost use Rattle.bounded.specs.Lists.{items_of, Copied};

use crate::lists::{Bounded, Full};

// That item in each place. By itself, since push would clear room for the array at each item, and not at the first alone.
fn fill<T: Copy, const N: usize>(places: &mut Option<[T; N]>, item: T)
    ensures { places.new ≡ Some (replicate N item) }
{
    *places = Some([item; N]);
}

impl<T: Copy, const N: usize> Bounded<T, N> {
    // No item yet.
    pub fn new() -> Bounded<T, N>
        ensures { items_of result ≡ [] }
    {
        Bounded {
            places: None,
            len: 0,
        }
    }

    // One item more at the end; where there is no room, the list stays as it was.
    pub fn push(&mut self, item: T) -> Result<(), Full>
        ensures answer { is_ok result ≡ nat_lt (length (items_of self.old)) N }
        ensures after { items_of self.new ≡ (if is_ok result then items_of self.old ++ (item ∷ []) else items_of self.old) }
    {
        let n = self.len;
        if n >= N {
            return Err(Full);
        }
        match &mut self.places {
            Some(places) => places[n] = item,
            None => fill(&mut self.places, item),
        }
        self.len = n + 1;
        Ok(())
    }
}

impl<T: Copy, const N: usize> TryFrom<&[T]> for Bounded<T, N> {
    type Error = Full;

    ghost try_from_gives = { λ items result. Copied items.now result };

    fn try_from(items: &[T]) -> Result<Bounded<T, N>, Full> {
        let Some(first) = items.first() else {
            return Ok(Bounded::new());
        };
        let len = items.len();
        if len > N {
            return Err(Full);
        }
        let mut places = [*first; N];
        places[..len].copy_from_slice(items);
        Ok(Bounded {
            places: Some(places),
            len,
        })
    }
}
