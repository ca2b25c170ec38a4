// Sectors written, in address order. Each function stands beside its like in `read`: there the data area is lent to be changed, here the
// image, and the promises are of that. One form for both would be a trait with laws, which is longer than the pairs.
ghost use Rattle.std.specs.Prelude.{◌≡◌, ◌+◌, ◌*◌, ◌≤◌, ◌<◌, length};
ghost use Rattle.geometry.specs.Params.{sector_of, address_count, OnDrive};
ghost use Rattle.track.specs.Image.{Fits};
ghost use Rattle.sectors.specs.Promises.{HasWritten};

use crate::run::write_run;
use crate::transfer::{Done, done_of, sectors_here};
use geometry::params::{Lba, Params};
use track::find::{find_sector, where_is};
use track::sector::write_data;

// Writes the sector at an address.
fn write_one(image: &mut [u8], p: Params, a: Lba, sector: &[u8]) -> Done
    requires { Fits p image.old × OnDrive p a × (length sector.now ≡ p.size) }
    ensures { HasWritten p 1 a sector.now result image.old image.new }
{
    match find_sector(image, p, p.track_of(a), p.sector_of(a) as usize) {
        Err(code) => Done {
            sectors: 0,
            fault: Some(code),
        },
        Ok(found) => {
            let stretch = p.stretch(found.track);
            let start = stretch.start;
            let end = stretch.end;
            write_data(&mut image[start..end], p, found.slot, sector);
            Done {
                sectors: 1,
                fault: None,
            }
        }
    }
}

// Writes n sectors of one track from an address on.
fn write_part(image: &mut [u8], p: Params, a: Lba, n: usize, given: &[u8]) -> Done
    requires { Fits p image.old × OnDrive p a × (1 ≤ n) × (sector_of p a + n ≤ p.sectors) × (length given.now ≡ n * p.size) }
    ensures { HasWritten p n a given.now result image.old image.new }
{
    match where_is(image, p, p.track_of(a)) {
        Err(code) => Done {
            sectors: 0,
            fault: Some(code),
        },
        Ok(u) => {
            let stretch = p.stretch(u);
            let start = stretch.start;
            let end = stretch.end;
            let first = p.sector_of(a) as usize;
            done_of(write_run(&mut image[start..end], p, first, n, given), n)
        }
    }
}

// n sectors in address order from the data given, track after track; the first failing one ends it.
pub fn write_sectors(image: &mut [u8], p: Params, a: Lba, n: usize, given: &[u8]) -> Done
    requires { Fits p image.old × (a.0 + n ≤ address_count p) × (n * p.size ≤ length given.now) }
    ensures { HasWritten p n a given.now result image.old image.new }
{
    let size = p.size;
    if n == 1 {
        return write_one(image, p, a, &given[0..size]);
    }
    let mut i: usize = 0;
    let mut at: usize = 0;
    // Not a `for`: a turn goes as far as the track does. Beside `read_sectors`: one form for both would be a trait with laws, which is
    // longer than the two loops.
    while i < n {
        let here = a.further(i);
        let m = sectors_here(p, here, n - i);
        let end = at + m * size;
        let part = write_part(image, p, here, m, &given[at..end]);
        i += part.sectors;
        if part.fault.is_some() {
            return Done {
                sectors: i,
                fault: part.fault,
            };
        }
        at = end;
    }
    Done {
        sectors: i,
        fault: None,
    }
}
