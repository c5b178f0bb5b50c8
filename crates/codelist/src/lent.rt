// A kind of value of any entries. Beside `Kind`, since the size of a number in an entry that is lent is not known before it is read, and a
// rule may ask for it where a body does not read it: such a body is proved by value.
ghost use Rattle.std.specs.Prelude.{◌≡◌, ℤ};
ghost use Rattle.codelist.specs.Kinds.{Rules, Vouching, KindLaw, DivideLaw};

use crate::kinds::Kind;
use family::cells::Cell;
use family::readings::Reading;

// As `Kind`, but lent its operands, so that entries may be of any type. A list runs over such a kind.
pub trait LentKind {
    type Entry;

    // The largest size of an end of an entry, in counts.
    const LARGEST: i64;

    ghost LARGEST: { ℤ };

    ghost rules: { Rules Self.Entry };

    ghost vouches: { Vouching Self.Entry };

    ghost laws: { KindLaw rules vouches };

    // Division stands apart from the other operations.
    ghost divided: { Self.Entry → Self.Entry → Self.Entry };

    ghost division: { DivideLaw divided vouches };

    // What stands in the place of a line that is not filled yet.
    fn blank() -> Self::Entry
        ensures { result ≡ rules.blank };

    fn x(cell: Cell) -> Self::Entry
        ensures { result ≡ rules.x cell };

    fn constant(v: i32) -> Self::Entry
        ensures { result ≡ rules.constant v };

    fn reading(r: Option<Reading>) -> Self::Entry
        ensures { result ≡ rules.reading r };

    fn neg(e: &Self::Entry) -> Self::Entry
        ensures { result ≡ rules.neg e.now };

    fn abs(e: &Self::Entry) -> Self::Entry
        ensures { result ≡ rules.abs e.now };

    fn add(e: &Self::Entry, f: &Self::Entry) -> Self::Entry
        ensures { result ≡ rules.add e.now f.now };

    fn sub(e: &Self::Entry, f: &Self::Entry) -> Self::Entry
        ensures { result ≡ rules.sub e.now f.now };

    fn mul(e: &Self::Entry, f: &Self::Entry) -> Self::Entry
        ensures { result ≡ rules.mul e.now f.now };

    fn max(e: &Self::Entry, f: &Self::Entry) -> Self::Entry
        ensures { result ≡ rules.max e.now f.now };

    fn chi(s: &Self::Entry, q: &Self::Entry, r: &Self::Entry) -> Self::Entry
        ensures { result ≡ rules.chi s.now q.now r.now };

    fn div(e: &Self::Entry, f: &Self::Entry) -> Self::Entry
        ensures { result ≡ divided e.now f.now };
}

// Each kind whose entries are copied, so that a list runs over it.
impl<K: Kind> LentKind for K {
    type Entry = K::Entry;

    const LARGEST: i64 = K::LARGEST;

    ghost LARGEST = { K.LARGEST };

    ghost rules = { K.rules };

    ghost vouches = { K.vouches };

    ghost laws = { K.laws };

    ghost divided = { K.divided };

    ghost division = { K.division };

    fn blank() -> K::Entry {
        K::blank()
    }

    fn x(cell: Cell) -> K::Entry {
        K::x(cell)
    }

    fn constant(v: i32) -> K::Entry {
        K::constant(v)
    }

    fn reading(r: Option<Reading>) -> K::Entry {
        K::reading(r)
    }

    fn neg(e: &K::Entry) -> K::Entry {
        K::neg(*e)
    }

    fn abs(e: &K::Entry) -> K::Entry {
        K::abs(*e)
    }

    fn add(e: &K::Entry, f: &K::Entry) -> K::Entry {
        K::add(*e, *f)
    }

    fn sub(e: &K::Entry, f: &K::Entry) -> K::Entry {
        K::sub(*e, *f)
    }

    fn mul(e: &K::Entry, f: &K::Entry) -> K::Entry {
        K::mul(*e, *f)
    }

    fn max(e: &K::Entry, f: &K::Entry) -> K::Entry {
        K::max(*e, *f)
    }

    fn chi(s: &K::Entry, q: &K::Entry, r: &K::Entry) -> K::Entry {
        K::chi(*s, *q, *r)
    }

    fn div(e: &K::Entry, f: &K::Entry) -> K::Entry {
        K::div(*e, *f)
    }
}
