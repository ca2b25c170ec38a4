// What the checks see of a drive, which of them hit, and what they say of a command.
use codes::{Code, Refusal};
use geometry::medium::Medium;
use geometry::params::{Lba, Params};

// A drive as the checks see it.
#[derive(Clone, Copy)]
pub struct View {
    pub medium: Medium,
    // its image has at least 16 bytes
    pub present: bool,
    // the parameters in force, judged with the image lent
    pub setting: Option<Params>,
    pub pending: bool,
}

// The checks that hit, in document 01's order.
#[derive(Clone, Copy)]
pub struct Hits {
    // 20h
    pub unknown: bool,
    // 22h: bit 7 of byte 1, a command that the drive lacks, a control bit
    pub wrong: bool,
    // 04h
    pub absent: bool,
    // 0Ah
    pub unset: bool,
    // 22h
    pub interleave: bool,
    // 21h
    pub past: bool,
    // 16h
    pub pending: bool,
    // number 2
    pub short: bool,
    // number 3
    pub small: bool,
}

// Why a command is not carried out.
#[derive(Clone, Copy)]
pub enum Stop {
    Refuse(Refusal),
    // a code, and the address that goes with it
    Fail(Code, Lba),
}

// The same of a Copy: which of its drives it is said of.
#[derive(Clone, Copy)]
pub struct NamedStop {
    pub named: u8,
    pub stop: Stop,
}
