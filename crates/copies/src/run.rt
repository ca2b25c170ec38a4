// A Copy on the four drives' entries and images.
ghost use Rattle.std.specs.Prelude.{◌≡◌, length, set};
ghost use Rattle.pouring.specs.Lent.{lent, SameLent};
ghost use Rattle.copies.specs.Runs.{IsCopy, CopyRan};

use crate::obey::obey_copy;
use drives::entry::drive_at;
use model::block::CopyBlock;
use model::record::{Drive, Ending};
use pouring::images::Images;

// A Copy, on the entries of its two drives: the data area is not touched.
// It calls `obey_copy` in two branches, which are the same but for the entries: with a single call LLVM would put Copy, with its
// 10 KB of stack, into every command (docs/DECISIONS.md, D39).
pub fn run_copy(
    drives: [Drive; 4],
    k: CopyBlock,
    buffer: &mut [u8; 512],
    images: &mut Images,
) -> Ending
    requires { IsCopy k }
    ensures ran { CopyRan k (record { buffer = buffer.old; drives = drives })
        (lent images.old)
        (record { controller = record { buffer = buffer.new; drives = set drives k.from.drive result.entry }; answer = result.answer })
        (lent images.new) }
    ensures same { SameLent images.old images.new }
{
    let from = k.from;
    let to = k.to;
    if to.drive == from.drive {
        let entry = drive_at(drives, to.drive);
        return obey_copy(entry, entry, k, buffer, images);
    }
    let source = drive_at(drives, from.drive);
    let target = drive_at(drives, to.drive);
    obey_copy(source, target, k, buffer, images)
}
