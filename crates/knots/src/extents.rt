// The whole counts between which a table lies over a cell.
use interval::enclosures::Enclosure;

#[derive(Clone, Copy, PartialEq, Eq, Debug)]
pub struct Extent {
    pub lo: i32,
    pub hi: i32,
}

impl From<Extent> for Enclosure {
    ghost use Rattle.std.specs.Prelude.{◌≡◌};
    ghost use Rattle.interval.specs.declared.enclosures.Enclosure.TheVariants.{Bounds};

    ghost from_gives = { λ extent enclosure. enclosure ≡ Bounds extent.lo extent.hi };

    fn from(extent: Extent) -> Enclosure {
        let Extent { lo, hi } = extent;
        Enclosure::Bounds { lo, hi }
    }
}
