// Sectors read, in address order.
ghost use Rattle.std.specs.Prelude.{◌≡◌, ◌+◌, ◌*◌, ◌≤◌, ◌<◌, length};
ghost use Rattle.geometry.specs.Params.{sector_of, address_count, OnDrive};
ghost use Rattle.track.specs.Image.{Fits};
ghost use Rattle.sectors.specs.Promises.{HasRead};

use crate::run::read_run;
use crate::transfer::{Done, done_of, sectors_here};
use base::bytes::move_bytes;
use geometry::params::{Lba, Params};
use track::find::{find_sector, where_is};
use track::view::track_of;

// Reads the sector at an address to its place.
fn read_one(image: &[u8], p: Params, a: Lba, place: &mut [u8]) -> Done
    requires { Fits p image.now × OnDrive p a × (length place.old ≡ p.size) }
    ensures { HasRead p 1 a image.now result place.old place.new }
{
    match find_sector(image, p, p.track_of(a), p.sector_of(a) as usize) {
        Err(code) => Done {
            sectors: 0,
            fault: Some(code),
        },
        Ok(found) => {
            let track = track_of(image, p, found.track);
            move_bytes(place, track.data(found.slot));
            Done {
                sectors: 1,
                fault: None,
            }
        }
    }
}

// Reads n sectors of one track from an address on, to their places.
fn read_part(image: &[u8], p: Params, a: Lba, n: usize, places: &mut [u8]) -> Done
    requires { Fits p image.now × OnDrive p a × (1 ≤ n) × (sector_of p a + n ≤ p.sectors) × (length places.old ≡ n * p.size) }
    ensures { HasRead p n a image.now result places.old places.new }
{
    match where_is(image, p, p.track_of(a)) {
        Err(code) => Done {
            sectors: 0,
            fault: Some(code),
        },
        Ok(u) => {
            let first = p.sector_of(a) as usize;
            done_of(read_run(track_of(image, p, u), first, n, places), n)
        }
    }
}

// n sectors in address order to the front of the data area, track after track; the first failing one ends it.
// A call: else LLVM puts it in line four times for the end of a Copy, which reads one sector.
#[inline(never)]
pub fn read_sectors(image: &[u8], p: Params, a: Lba, n: usize, area: &mut [u8]) -> Done
    requires { Fits p image.now × (a.0 + n ≤ address_count p) × (n * p.size ≤ length area.old) }
    ensures { HasRead p n a image.now result area.old area.new }
{
    let size = p.size;
    if n == 1 {
        return read_one(image, p, a, &mut area[0..size]);
    }
    let mut i: usize = 0;
    let mut at: usize = 0;
    // Not a `for`: a turn goes as far as the track does.
    while i < n {
        let here = a.further(i);
        let m = sectors_here(p, here, n - i);
        let end = at + m * size;
        let part = read_part(image, p, here, m, &mut area[at..end]);
        i += part.sectors;
        if part.fault.is_some() {
            return Done {
                sectors: i,
                fault: part.fault,
            };
        }
        at = end;
    }
    Done {
        sectors: i,
        fault: None,
    }
}
