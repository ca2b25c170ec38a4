// What reading and writing share: how far a transfer came, how far it goes on one track, and its last sector.
ghost use Rattle.std.specs.Prelude.{◌≡◌, ◌+◌, ◌-◌, ◌*◌, ◌≤◌, min, length, ltb};
ghost use Rattle.codes.specs.Numbers.{code_number};
ghost use Rattle.base.specs.Part.{splice};
ghost use Rattle.base.specs.Pick.{pick};
ghost use Rattle.geometry.specs.Params.{Within, sector_of};
ghost use Rattle.sectors.specs.Last.{last_of};

use codes::Code;
use geometry::params::{Lba, Params};

// Sectors done, and the code of the one that failed, if any.
#[derive(Clone, Copy)]
pub struct Done {
    pub sectors: usize,
    pub fault: Option<Code>,
}

// What a run of n sectors of a track comes to: 14h where it ended before the last.
pub fn done_of(sectors: usize, n: usize) -> Done
    ensures { (result.sectors ≡ sectors) × (code_number result.fault ≡ pick (ltb sectors n) 0x14 0) }
{
    if sectors < n {
        return Done {
            sectors,
            fault: Some(Code::NoSector),
        };
    }
    Done {
        sectors,
        fault: None,
    }
}

// Sectors to move in one go: those left, as far as they are on the track of the address.
pub fn sectors_here(p: Params, a: Lba, left: usize) -> usize
    requires { Within p × (1 ≤ left) }
    ensures { (result ≡ min left (p.sectors - sector_of p a)) × (1 ≤ result) × (result ≤ left) × (sector_of p a + result ≤ p.sectors) }
{
    let room = p.sectors - p.sector_of(a) as usize;
    left.min(room)
}

// After a transfer the last sector done is at the buffer's front.
pub fn keep_last(buffer: &mut [u8], sectors: usize, size: usize, moved: &[u8])
    requires { (size ≤ length buffer.old) × (sectors * size ≤ length moved.now) }
    ensures { buffer.new ≡ splice 0 (last_of sectors size moved.now) buffer.old }
{
    if let Some(before) = sectors.checked_sub(1) {
        let start = before * size;
        buffer[..size].copy_from_slice(&moved[start..start + size]);
    }
}
