// One turn of a copy: some source sectors are read behind the bytes that wait, then every destination sector that is full is written.
ghost use Rattle.std.specs.Prelude.{◌≡◌, ◌+◌, ◌-◌, ◌*◌, ◌≤◌, ◌<◌, length};
ghost use Rattle.base.specs.Part.{part, splice};
ghost use Rattle.geometry.specs.Params.{Within};
ghost use Rattle.copying.specs.Ends.{Going, as_end};
ghost use Rattle.pouring.specs.Lent.{lent, SameLent};
ghost use Rattle.pouring.specs.Promises.{turn_most, Underway, after_turn, TurnedTo};

use crate::images::{Images, store_sectors};
use base::bytes::copy_within;
use copying::route::{CopyFault, Route};
use geometry::params::{Lba, Params};
use sectors::transfer::{Done, sectors_here};

// Source bytes of one turn: a track of 17 sectors of 512 bytes, one of 32 of 256, or four of 16 of 128.
const TURN: usize = 17 * 512;

// Bytes of the scratch: those, behind less than a sector that waits.
pub const SCRATCH: usize = TURN + 512;

// Where a copy stands between two turns: `held` bytes wait at the scratch's front.
#[derive(Clone, Copy)]
pub struct Progress {
    pub read: usize,
    pub done: usize,
    pub held: usize,
    pub fault: Option<CopyFault>,
}

// Of the sectors left, those here, on one track, and as many whole tracks more as fit into a turn.
fn with_tracks(here: usize, left: usize, sectors: usize, size: usize) -> usize
    requires { (1 ≤ here) × (here ≤ left) × (here ≤ 32) × (1 ≤ sectors) × (sectors ≤ 32) × (0 < size) × (size ≤ 512) }
    ensures { (1 ≤ result) × (result ≤ left) × (result * size ≤ turn_most) }
{
    let bytes = here * size;
    if TURN < bytes {
        // on no disk is a track longer than a turn
        return 17;
    }
    let room = TURN - bytes;
    let track = sectors * size;
    if room < track {
        return here;
    }
    let m = here + room / track * sectors;
    if left < m {
        return left;
    }
    m
}

// How many source sectors are read in one go.
fn chunk(p: Params, a: Lba, left: usize) -> usize
    requires { Within p × (0 < p.size) × (1 ≤ left) }
    ensures { (1 ≤ result) × (result ≤ left) × (result * p.size ≤ turn_most) }
{
    with_tracks(sectors_here(p, a, left), left, p.sectors, p.size)
}

// The bytes from start to end, less than a sector, go to the front.
fn move_front(bytes: &mut [u8], start: usize, end: usize)
    requires { (start ≤ end) × (end ≤ length bytes.old) × (end - start ≤ 512) }
    ensures { bytes.new ≡ splice 0 (part start (end - start) bytes.old) bytes.old }
{
    copy_within(bytes, start, 0, end - start);
}

// How far a turn came. A destination fault ends the copy, and counts the source sectors that its sector needed; else a source fault.
fn after_turn(r: Route, s: Progress, source: Done, target: Done, held: usize) -> Progress
    requires { (0 < r.p.size) × (r.p.size ≤ 512) × (r.q.size ≤ 512) × (s.read + source.sectors ≤ 256)
        × (s.done + target.sectors ≤ 131072) × ((s.done + target.sectors) * r.q.size ≤ 131072) }
    ensures { result ≡ after_turn r s source target held }
{
    let done = s.done + target.sectors;
    let read = s.read + source.sectors;
    let size = r.p.size;
    if let Some(code) = target.fault {
        let bytes = (done + 1) * r.q.size + (size - 1);
        return Progress {
            read: bytes / size,
            done,
            held: 0,
            fault: Some(CopyFault::AtTarget(code)),
        };
    }
    if let Some(code) = source.fault {
        return Progress {
            read,
            done,
            held: 0,
            fault: Some(CopyFault::AtSource(code)),
        };
    }
    Progress {
        read,
        done,
        held,
        fault: None,
    }
}

// A turn, of a copy that goes on and has source sectors left.
pub fn turn(r: Route, n: usize, s: Progress, scratch: &mut [u8], images: &mut Images) -> Progress
    requires { Underway r n s scratch.old (lent images.old)
        × (as_end s.fault ≡ Going) × (s.read < n) }
    ensures turned { TurnedTo r n s scratch.old (lent images.old) result scratch.new (lent images.new) }
    ensures same { SameLent images.old images.new }
{
    let p = r.p;
    let from = r.a;
    let a = from.further(s.read);
    let m = chunk(p, a, n - s.read);
    let start = s.held;
    let end = start + m * p.size;
    let source = images.read(r.source, p, a, m, &mut scratch[start..end]);
    let filled = start + source.sectors * p.size;
    let full = filled / r.q.size;
    let target = store_sectors(r, s.done, full, &scratch[0..filled], images);
    let used = full * r.q.size;
    move_front(scratch, used, filled);
    after_turn(r, s, source, target, filled - used)
}
