// Read.
ghost use Rattle.std.specs.Prelude.{◌≡◌, length};
ghost use Rattle.model.specs.Commands.{read};
ghost use Rattle.model.specs.Premises.{OnSectors};
ghost use Rattle.endings.specs.Left.{left_now, left_by};

use crate::transfer::finish;
use checks::block::count_of;
use geometry::params::Params;
use model::block::Block;
use model::record::{Drive, Ending};
use sectors::read::read_sectors;
use sectors::transfer::keep_last;

pub fn read(
    entry: Drive,
    b: Block,
    p: Params,
    buffer: &mut [u8; 512],
    area: &mut [u8],
    image: &[u8],
) -> Ending
    requires { OnSectors b p image.now (length area.old) }
    ensures { left_now result buffer.new area.new image.now
        ≡ left_by (read b p entry buffer.old image.now) area.old }
{
    let size = p.size;
    let done = read_sectors(image, p, b.address, count_of(b), area);
    let sectors = done.sectors;
    let bytes = sectors * size;
    keep_last(buffer, sectors, size, area);
    finish(entry, b, done, bytes as u32)
}
