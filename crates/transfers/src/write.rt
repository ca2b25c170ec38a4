// Write.
ghost use Rattle.std.specs.Prelude.{◌≡◌, [], length};
ghost use Rattle.model.specs.Record.{effect};
ghost use Rattle.model.specs.Commands.{write};
ghost use Rattle.model.specs.Premises.{OnSectors};

use crate::transfer::finish;
use checks::block::count_of;
use geometry::params::Params;
use model::block::Block;
use model::record::{Drive, Ending};
use sectors::transfer::keep_last;
use sectors::write::write_sectors;

pub fn write(
    entry: Drive,
    b: Block,
    p: Params,
    buffer: &mut [u8; 512],
    given: &[u8],
    image: &mut [u8],
) -> Ending
    requires { OnSectors b p image.old (length given.now) }
    ensures { effect result buffer.new [] image.new
        ≡ write b p given.now entry buffer.old image.old }
{
    let size = p.size;
    let done = write_sectors(image, p, b.address, count_of(b), given);
    let sectors = done.sectors;
    keep_last(buffer, sectors, size, given);
    finish(entry, b, done, 0)
}
