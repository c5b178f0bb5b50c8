// What a kind of value is: a type of entries, and one function for each operation on them. The ghost members are the kind's rules and
// what its entries vouch for.
ghost use Rattle.std.specs.Prelude.{◌≡◌, ℤ};
ghost use Rattle.codelist.specs.Kinds.{Rules, Vouching, KindLaw, DivideLaw};

use family::cells::Cell;
use family::readings::Reading;

// No operation has a body here for kinds whose entries have operators, and each kind writes them out: an entry may have none, as a bool.
pub trait Kind {
    type Entry: Copy;

    // The largest size of an end of an entry, in counts.
    const LARGEST: i64;

    ghost LARGEST: { ℤ };

    ghost rules: { Rules Self.Entry };

    ghost vouches: { Vouching Self.Entry };

    ghost laws: { KindLaw rules vouches };

    // Division stands apart from the other operations.
    ghost divided: { Self.Entry → Self.Entry → Self.Entry };

    ghost division: { DivideLaw divided vouches };

    // What stands in the place of a line that is not filled yet.
    fn blank() -> Self::Entry
        ensures { result ≡ rules.blank };

    fn x(cell: Cell) -> Self::Entry
        ensures { result ≡ rules.x cell };

    fn constant(v: i32) -> Self::Entry
        ensures { result ≡ rules.constant v };

    fn reading(r: Option<Reading>) -> Self::Entry
        ensures { result ≡ rules.reading r };

    fn neg(e: Self::Entry) -> Self::Entry
        ensures { result ≡ rules.neg e };

    fn abs(e: Self::Entry) -> Self::Entry
        ensures { result ≡ rules.abs e };

    fn add(e: Self::Entry, f: Self::Entry) -> Self::Entry
        ensures { result ≡ rules.add e f };

    fn sub(e: Self::Entry, f: Self::Entry) -> Self::Entry
        ensures { result ≡ rules.sub e f };

    fn mul(e: Self::Entry, f: Self::Entry) -> Self::Entry
        ensures { result ≡ rules.mul e f };

    fn max(e: Self::Entry, f: Self::Entry) -> Self::Entry
        ensures { result ≡ rules.max e f };

    fn chi(s: Self::Entry, q: Self::Entry, r: Self::Entry) -> Self::Entry
        ensures { result ≡ rules.chi s q r };

    fn div(e: Self::Entry, f: Self::Entry) -> Self::Entry
        ensures { result ≡ divided e f };
}
