// Where a copy goes, and how it ended.
use codes::Code;
use geometry::params::{Lba, Params};

// From address a of drive `source`, with parameters p, to address b of drive `target`, with parameters q.
#[derive(Clone, Copy)]
pub struct Route {
    pub source: u8,
    pub target: u8,
    pub p: Params,
    pub q: Params,
    pub a: Lba,
    pub b: Lba,
}

// What ended a copy: a source or a destination sector that is not found, or a last sector completed with zeros.
#[derive(Clone, Copy)]
pub enum CopyFault {
    AtSource(Code),
    AtTarget(Code),
    PartlyFilled,
}

// Source sectors read, destination sectors written, and what ended it, if anything did.
#[derive(Clone, Copy)]
pub struct Copied {
    pub read: usize,
    pub done: usize,
    pub fault: Option<CopyFault>,
}
