// The declared types.
ghost use Rattle.std.specs.Prelude.{◌≡◌, ◌≤◌, length};
ghost use Rattle.std.specs.Option.{ForSome};
ghost use Rattle.bounded.specs.Places.{placed};

use std::alloc::AllocError;

// At most N items, in order: the first len of the places, which stand from the first item on.
// An array with a length beside it, since no memory is asked for.
pub struct Bounded<T, const N: usize> {
    places: Option<[T; N]>,
    len: usize,
    ghost sized: { ForSome places (λ all. length all ≡ N) },
    ghost few: { len ≤ length (placed places) },
}

// Why an item is refused: there is no room.
#[derive(Clone, Copy, PartialEq, Eq, Debug)]
pub struct Full;

// By hand: tried, and the derive is refused for a generic struct with ghost fields.
impl<T: Copy, const N: usize> Clone for Bounded<T, N> {
    ghost is_clone = { λ x y. y ≡ x };

    ghost is_infallible = { λ _. Unit {0} };

    fn clone(&self) -> Result<Bounded<T, N>, AllocError> {
        Ok(*self)
    }
}

impl<T: Copy, const N: usize> Copy for Bounded<T, N> {}

pub mod filling;
pub mod questions;
