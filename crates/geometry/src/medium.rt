// The kinds of drive, by their numbers, and what a configuration's bytes may be on each.
ghost use Rattle.std.specs.Prelude.{◌≡◌};
ghost use Rattle.geometry.specs.Medium.{medium_of, is_in, ranges_of};

#[derive(Clone, Copy, PartialEq, Eq)]
pub enum Medium {
    HardDisk,
    Floppy,
}

// From the least to the most. Of std's `RangeInclusive` the definitions would have to name a third field, that it is not exhausted.
#[derive(Clone, Copy)]
pub struct Range {
    pub least: u32,
    pub most: u32,
}

impl Range {
    #[tactic(auto, unfolding(crate::specs::Medium::is_in))]
    pub fn contains(self, value: u32) -> bool
        ensures { result ≡ is_in self value }
    {
        self.least <= value && value <= self.most
    }
}

// What the fields of a configuration may be.
#[derive(Clone, Copy)]
pub struct Ranges {
    // bytes 0 and 1
    pub cylinders: Range,
    // byte 2
    pub heads: Range,
    // the high nibble of byte 3
    pub step: Range,
    // its low nibble
    pub nibble: Range,
    // byte 4
    pub size: Range,
    // byte 9
    pub burst: Range,
}

const HARD_DISK: Ranges = Ranges {
    cylinders: Range {
        least: 1,
        most: 1024,
    },
    heads: Range { least: 1, most: 7 },
    step: Range { least: 0, most: 4 },
    nibble: Range { least: 0, most: 1 },
    size: Range { least: 1, most: 2 },
    burst: Range { least: 0, most: 11 },
};

const FLOPPY: Ranges = Ranges {
    cylinders: Range {
        least: 1,
        most: 255,
    },
    heads: Range { least: 1, most: 2 },
    step: Range { least: 0, most: 15 },
    nibble: Range { least: 1, most: 1 },
    size: Range { least: 0, most: 0 },
    burst: Range {
        least: 0,
        most: 255,
    },
};

// By a drive's number, which alone is no medium, so that a `From` would say too little.
#[tactic(auto, using(base::proofs::Decide::decide), unfolding(crate::specs::Medium::medium_of))]
pub fn medium_of(drive: u8) -> Medium
    ensures { result ≡ medium_of drive }
{
    if drive < 2 {
        Medium::HardDisk
    } else {
        Medium::Floppy
    }
}

#[tactic(auto, unfolding(crate::specs::Medium::ranges_of))]
pub fn ranges_of(medium: Medium) -> Ranges
    ensures { result ≡ ranges_of medium }
{
    match medium {
        Medium::HardDisk => HARD_DISK,
        Medium::Floppy => FLOPPY,
    }
}
