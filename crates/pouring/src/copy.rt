// Copy Blocks, turn after turn; the bytes that wait in the end are completed with zeros.
ghost use Rattle.std.specs.Prelude.{◌≡◌, true, false, ◌+◌, ◌≤◌, ◌<◌, length};
ghost use Rattle.copying.specs.Ends.{Going, as_end};
ghost use Rattle.copying.specs.Copying.{copied};
ghost use Rattle.pouring.specs.Lent.{lent, SameLent};
ghost use Rattle.pouring.specs.Promises.{RouteReady, CopiedBy, WentAs, scratch_length, ended_by, NoTurnLeft, CompletedTo};

use crate::images::{Images, keep_done, store_sectors};
use crate::turn::{Progress, SCRATCH, turn};
use copying::route::{Copied, CopyFault, Route};
use sectors::transfer::Done;

// Whether there is another turn.
fn goes_on(s: Progress, n: usize) -> bool
    ensures { (result ≡ true → (as_end s.fault ≡ Going) × (s.read < n)) × (result ≡ false → as_end s.fault ≡ Going → n ≤ s.read) }
{
    s.fault.is_none() && s.read < n
}

// What the last sector's Write comes to.
fn ended_by(s: Progress, target: Done) -> Copied
    requires { s.done + target.sectors ≤ 131073 }
    ensures { result ≡ ended_by s target }
{
    let fault = match target.fault {
        None => CopyFault::PartlyFilled,
        Some(code) => CopyFault::AtTarget(code),
    };
    Copied {
        read: s.read,
        done: s.done + target.sectors,
        fault: Some(fault),
    }
}

// The end of a copy: bytes that wait are a last sector, with zeros behind them.
fn complete(r: Route, s: Progress, scratch: &mut [u8], images: &mut Images) -> Copied
    requires { NoTurnLeft r s scratch.old (lent images.old) }
    ensures completed { CompletedTo r s scratch.old (lent images.old) result (lent images.new) }
    ensures same { SameLent images.old images.new }
{
    let held = s.held;
    if held == 0 {
        return Copied {
            read: s.read,
            done: s.done,
            fault: s.fault,
        };
    }
    let size = r.q.size;
    scratch[held..size].fill(0);
    let target = store_sectors(r, s.done, 1, &scratch[0..size], images);
    ended_by(s, target)
}

// Turns as long as it goes on, on lent scratch.
fn copy_through(r: Route, n: usize, scratch: &mut [u8], images: &mut Images) -> Copied
    requires { RouteReady r n (lent images.old) × (length scratch.old ≡ scratch_length) }
    ensures went { WentAs (copied r n (lent images.old)) result (lent images.new) }
    ensures same { SameLent images.old images.new }
{
    let mut s = Progress {
        read: 0,
        done: 0,
        held: 0,
        fault: None,
    };
    while goes_on(s, n) {
        s = turn(r, n, s, scratch, images);
    }
    complete(r, s, scratch, images)
}

// n source sectors along a route, on the four images; the last sector written is at the buffer's front.
pub fn copy_sectors(r: Route, n: usize, buffer: &mut [u8; 512], images: &mut Images) -> Copied
    requires { RouteReady r n (lent images.old) }
    ensures copied { CopiedBy (copied r n (lent images.old)) result buffer.old buffer.new (lent images.new) }
    ensures same { SameLent images.old images.new }
{
    let mut scratch = [0u8; SCRATCH];
    let copied = copy_through(r, n, &mut scratch[0..SCRATCH], images);
    keep_done(r, copied.done, buffer, images.shared());
    copied
}
