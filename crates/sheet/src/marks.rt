// How often a part of a sheet may stand.
ghost use Rattle.std.specs.Prelude.{◌≡◌};
ghost use Rattle.sheet.specs.Marks.{may_miss, may_repeat};

// The mark of a part, which is a field or a whole block.
#[derive(Clone, Copy, PartialEq, Eq, Debug)]
pub enum Mark {
    Once,
    AtMostOnce,
    AtLeastOnce,
    AnyNumber,
}

impl Mark {
    // May the part be left out?
    pub fn may_miss(self) -> bool
        ensures { result ≡ may_miss self }
    {
        match self {
            Mark::Once | Mark::AtLeastOnce => false,
            Mark::AtMostOnce | Mark::AnyNumber => true,
        }
    }

    // May the part stand more than once?
    pub fn may_repeat(self) -> bool
        ensures { result ≡ may_repeat self }
    {
        match self {
            Mark::Once | Mark::AtMostOnce => false,
            Mark::AtLeastOnce | Mark::AnyNumber => true,
        }
    }
}
