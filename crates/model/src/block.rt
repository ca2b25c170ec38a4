// The fields of a command's bytes.
use geometry::params::Lba;

#[derive(Clone, Copy)]
pub struct Block {
    pub opcode: u8,
    // bit 7 of byte 1
    pub top: bool,
    pub drive: u8,
    pub address: Lba,
    // the interleave, or the count
    pub extra: u8,
    pub control: u8,
}

// Copy's source with the count and the control byte, and its destination.
#[derive(Clone, Copy)]
pub struct CopyBlock {
    pub from: Block,
    pub to: Block,
}
