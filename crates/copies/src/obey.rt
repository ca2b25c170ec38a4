// Copy from its block on: two drives' entries, and the images.
ghost use Rattle.std.specs.Prelude.{◌≡◌, ◌<◌, length};
ghost use Rattle.model.specs.Copies.{copy_effect, copy_with};
ghost use Rattle.geometry.specs.Medium.{medium_of};
ghost use Rattle.model.specs.Engine.{view_of, image_of, obey_copy};
ghost use Rattle.pouring.specs.Lent.{lent, SameLent};
ghost use Rattle.copies.specs.Ready.{Copyable, TwoDrives};

use crate::copy::copy;
use crate::judge::judge_copy;
use codes::Code;
use drives::view::view_of;
use endings::ending::{failed, refused};
use geometry::params::Params;
use model::block::CopyBlock;
use model::record::{Drive, Ending};
use model::verdict::{Stop, View};
use pouring::images::Images;

// A drive as the checks see it, with its image of the four.
fn view_on(drive: u8, entry: Drive, images: &Images) -> View
    requires { drive < 4 }
    ensures { result ≡ view_of (medium_of drive) entry
        (length (image_of drive (lent images.now))) }
{
    view_of(drive, entry, images.of(drive).len())
}

// With the parameters of both drives, which the order of checks has asked for before.
fn copy_with(
    source: Drive,
    k: CopyBlock,
    from: Option<Params>,
    to: Option<Params>,
    buffer: &mut [u8; 512],
    images: &mut Images,
) -> Ending
    requires { Copyable k from to (lent images.old) }
    ensures left { copy_effect result buffer.new (lent images.new)
        ≡ copy_with k from to source buffer.old (lent images.old) }
    ensures same { SameLent images.old images.new }
{
    let a = k.from;
    let b = k.to;
    let Some(p) = from else {
        return failed(
            source,
            a.drive,
            a.drive,
            Code::NoParameters,
            a.address,
            0,
            0,
        );
    };
    let Some(q) = to else {
        return failed(
            source,
            a.drive,
            b.drive,
            Code::NoParameters,
            b.address,
            0,
            0,
        );
    };
    copy(source, k, p, q, buffer, images)
}

// A Copy, on the entries of the two drives that it names and the images. What comes back is the source drive's.
pub fn obey_copy(
    source: Drive,
    target: Drive,
    k: CopyBlock,
    buffer: &mut [u8; 512],
    images: &mut Images,
) -> Ending
    requires { TwoDrives k source target }
    ensures left { copy_effect result buffer.new (lent images.new)
        ≡ obey_copy k source target buffer.old (lent images.old) }
    ensures same { SameLent images.old images.new }
{
    let a = k.from;
    let b = k.to;
    let v = view_on(a.drive, source, images);
    let w = view_on(b.drive, target, images);
    let from = v.setting;
    let to = w.setting;
    match judge_copy(k, v, w) {
        Err(said) => match said.stop {
            Stop::Refuse(refusal) => refused(source, refusal),
            Stop::Fail(code, at) => failed(source, a.drive, said.named, code, at, 0, 0),
        },
        Ok(()) => copy_with(source, k, from, to, buffer, images),
    }
}
