// Whether an enclosure is away from zero, and on which side.
ghost use Rattle.std.specs.Prelude.{◌≡◌, true, is_some};
ghost use Rattle.std.specs.Option.{IfSome};
ghost use Rattle.exact.specs.Value.{Value};
ghost use Rattle.interval.specs.Rules.{clear, sign_of};
ghost use Rattle.interval.specs.Meaning.{Holds, Shows, Away};

use crate::enclosures::Enclosure::Bounds;
use crate::enclosures::{Enclosure, Sign};

impl Enclosure {
    // Clear: every value that it holds is one count or more from zero.
    #[tactic(auto, using(crate::proofs::Clear::told))]
    pub fn is_clear(self) -> bool
        ensures rule { result ≡ clear self }
        ensures law { result ≡ true → (x : Value) → Holds self x → Away x }
        ensures signed { result ≡ is_some (sign_of self) }
    {
        self.sign().is_some()
    }

    // The sign of every value that it holds; none where it is not clear.
    #[tactic(auto, using(crate::proofs::Clear::sign_shows), unfolding(crate::specs::Rules::sign_of))]
    pub fn sign(self) -> Option<Sign>
        ensures rule { result ≡ sign_of self }
        ensures law { (x : Value) → Holds self x → IfSome result (λ s. Shows s x) }
    {
        let Bounds { lo, hi } = self else {
            return None;
        };
        if lo >= 1 {
            Some(Sign::Plus)
        } else if hi <= -1 {
            Some(Sign::Minus)
        } else {
            None
        }
    }
}
