// A reading of a thermocouple: the true temperature lies from lo to hi, in counts. It can only be made with ends in order
// and within the limit.
ghost use Rattle.std.specs.Prelude.{◌≡◌, IsTrue};
ghost use Rattle.family.specs.Limits.{believable};

#[derive(Clone, Copy)]
pub struct Reading {
    lo: i32,
    hi: i32,
    ghost valid: { IsTrue (believable lo hi) },
}

// Why a reading is refused.
#[derive(Clone, Copy, PartialEq, Eq, Debug)]
pub enum ReadingRefusal {
    Ends,
}

impl Reading {
    pub fn lo(&self) -> i32
        ensures { result ≡ self.now.lo }
    {
        self.lo
    }

    pub fn hi(&self) -> i32
        ensures { result ≡ self.now.hi }
    {
        self.hi
    }
}

pub mod made;
