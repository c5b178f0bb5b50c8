// The kind: an entry tells whether the line surely has a value. What reads only lines that surely have one has one, but for a quotient.
ghost use Rattle.std.specs.Prelude.{pos};
ghost use Rattle.defined.specs.Defined.{surely, vouches_surely, never, surely_law, never_law};

use codelist::kinds::Kind;
use family::cells::Cell;
use family::readings::Reading;

// Operation by operation: see `Kind`.
#[derive(Clone, Copy)]
pub struct Defined;

impl Kind for Defined {
    type Entry = bool;

    const LARGEST: i64 = 0;

    ghost LARGEST = { pos 0 };

    ghost rules = { surely };

    ghost vouches = { vouches_surely };

    ghost laws = { surely_law };

    ghost divided = { never };

    ghost division = { never_law };

    fn blank() -> bool {
        false
    }

    fn x(_cell: Cell) -> bool {
        true
    }

    fn constant(_v: i32) -> bool {
        true
    }

    fn reading(_r: Option<Reading>) -> bool {
        true
    }

    fn neg(e: bool) -> bool {
        e
    }

    fn abs(e: bool) -> bool {
        e
    }

    fn add(e: bool, f: bool) -> bool {
        e && f
    }

    fn sub(e: bool, f: bool) -> bool {
        e && f
    }

    fn mul(e: bool, f: bool) -> bool {
        e && f
    }

    fn max(e: bool, f: bool) -> bool {
        e && f
    }

    fn chi(s: bool, q: bool, r: bool) -> bool {
        s && q && r
    }

    fn div(_e: bool, _f: bool) -> bool {
        false
    }
}
