// Copy, once its checks have passed.
ghost use Rattle.std.specs.Prelude.{◌≡◌, length};
ghost use Rattle.copying.specs.Ends.{as_end};
ghost use Rattle.copying.specs.Copying.{copied};
ghost use Rattle.model.specs.Block.{count_of};
ghost use Rattle.model.specs.Copies.{copy_effect, route_of, copy_ending, copy_left};
ghost use Rattle.model.specs.Premises.{OnDrives};
ghost use Rattle.pouring.specs.Lent.{lent, SameLent};
ghost use Rattle.copies.specs.Ends.{CanEnd};

use checks::block::count_of;
use codes::Code;
use copying::route::{Copied, CopyFault, Route};
use endings::ending::{failed, good};
use geometry::params::Params;
use model::block::CopyBlock;
use model::record::{Drive, Ending};
use pouring::copy::copy_sectors;
use pouring::images::Images;

// A copy's end: status and sense are the source drive's, the sense names the drive and the sector that failed.
fn finish_copy(entry: Drive, k: CopyBlock, copied: Copied) -> Ending
    requires { CanEnd k copied }
    ensures { result ≡ copy_ending k copied.read copied.done (as_end copied.fault) entry }
{
    let from = k.from;
    let to = k.to;
    let a = from.address;
    let b = to.address;
    let read = copied.read;
    let done = copied.done;
    let drive = from.drive;
    let named = to.drive;
    match copied.fault {
        None => good(entry, drive, done as u16, 0),
        Some(CopyFault::AtSource(code)) => failed(
            entry,
            drive,
            drive,
            code,
            a.further(read),
            done as u16,
            0,
        ),
        Some(CopyFault::AtTarget(code)) => failed(
            entry,
            drive,
            named,
            code,
            b.further(done),
            done as u16,
            0,
        ),
        Some(CopyFault::PartlyFilled) => failed(
            entry,
            drive,
            named,
            Code::PartlyFilled,
            b.further(done - 1),
            done as u16,
            0,
        ),
    }
}

pub fn copy(
    entry: Drive,
    k: CopyBlock,
    p: Params,
    q: Params,
    buffer: &mut [u8; 512],
    images: &mut Images,
) -> Ending
    requires { OnDrives k p q (lent images.old) }
    ensures left { copy_effect result buffer.new (lent images.new)
        ≡ copy_left k entry buffer.old
        (copied (route_of k p q) (count_of k.from) (lent images.old)) }
    ensures same { SameLent images.old images.new }
{
    let from = k.from;
    let to = k.to;
    let a = from.address;
    let b = to.address;
    let route = Route {
        source: from.drive,
        target: to.drive,
        p,
        q,
        a,
        b,
    };
    let copied = copy_sectors(route, count_of(from), buffer, images);
    finish_copy(entry, k, copied)
}
