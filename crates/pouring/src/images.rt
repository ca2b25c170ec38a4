// The four images that a call is lent, and sectors of one of them, read and written.
ghost use Rattle.std.specs.Prelude.{◌≡◌, ◌+◌, ◌*◌, ◌≤◌, ◌<◌, length, map};
ghost use Rattle.base.specs.Part.{splice};
ghost use Rattle.geometry.specs.Params.{address_count};
ghost use Rattle.track.specs.Image.{Fits};
ghost use Rattle.sectors.specs.Transfer.{begun, writing};
ghost use Rattle.sectors.specs.Promises.{HasRead};
ghost use Rattle.copying.specs.Images.{image_of};
ghost use Rattle.pouring.specs.Lent.{lent, SameLent};
ghost use Rattle.pouring.specs.Promises.{WrittenOn, StoredBy, last_read};

use copying::route::Route;
use geometry::params::{Lba, Params};
use sectors::read::read_sectors;
use sectors::transfer::Done;
use sectors::write::write_sectors;

// Drive 0's image, and so on. Four fields and no array: an array of `&mut [u8]` cannot be built yet (docs/DECISIONS.md, D44).
#[derive(Drop)]
pub struct Images<'a> {
    pub image0: &'a mut [u8],
    pub image1: &'a mut [u8],
    pub image2: &'a mut [u8],
    pub image3: &'a mut [u8],
}

impl Images<'_> {
    // A drive's image, to be read.
    pub fn of(&self, drive: u8) -> &[u8]
        requires { drive < 4 }
        ensures { result.now ≡ image_of drive (lent self.now) }
    {
        let images = self.shared();
        images[drive as usize]
    }

    // All four, to be read.
    pub fn shared(&self) -> [&[u8]; 4]
        ensures { map (λ image. image.now) result ≡ lent self.now }
    {
        [&*self.image0, &*self.image1, &*self.image2, &*self.image3]
    }

    // n sectors of a drive, from address a on, to their places.
    pub fn read(&self, drive: u8, p: Params, a: Lba, n: usize, places: &mut [u8]) -> Done
        requires { (drive < 4) × Fits p (image_of drive (lent self.now))
            × (a.0 + n ≤ address_count p) × (n * p.size ≤ length places.old) }
        ensures { HasRead p n a (image_of drive (lent self.now)) result places.old places.new }
    {
        read_on(drive, p, a, n, places, self.shared())
    }

    // n sectors of a drive, from address a on, from the data given. By four calls: a `&mut` to one of four is not returned yet (D44).
    pub fn write(&mut self, drive: u8, p: Params, a: Lba, n: usize, given: &[u8]) -> Done
        requires { (drive < 4) × Fits p (image_of drive (lent self.old))
            × (a.0 + n ≤ address_count p) × (n * p.size ≤ length given.now) }
        ensures written { WrittenOn drive
            (writing p n a given.now (begun (image_of drive (lent self.old))))
            result (lent self.old) (lent self.new) }
        ensures same { SameLent self.old self.new }
    {
        match drive {
            0 => write_sectors(self.image0, p, a, n, given),
            1 => write_sectors(self.image1, p, a, n, given),
            2 => write_sectors(self.image2, p, a, n, given),
            _ => write_sectors(self.image3, p, a, n, given),
        }
    }
}

// n sectors of a drive, from address a on, to their places, where the four images are lent to be read alone: no struct can be made then,
// and one slice may stand for several drives.
pub fn read_on(
    drive: u8,
    p: Params,
    a: Lba,
    n: usize,
    places: &mut [u8],
    images: [&[u8]; 4],
) -> Done
    requires { (drive < 4) × Fits p (image_of drive (map (λ image. image.now) images))
        × (a.0 + n ≤ address_count p) × (n * p.size ≤ length places.old) }
    ensures { HasRead p n a (image_of drive (map (λ image. image.now) images.entry)) result places.old places.new }
{
    read_sectors(images[drive as usize], p, a, n, places)
}

// n destination sectors behind those done.
pub fn store_sectors(r: Route, done: usize, n: usize, given: &[u8], images: &mut Images) -> Done
    requires { (r.target < 4) × Fits r.q (image_of r.target (lent images.old))
        × (r.b.0 + done + n ≤ address_count r.q) × (n * r.q.size ≤ length given.now) }
    ensures stored { StoredBy r done n given.now (lent images.old) result (lent images.new) }
    ensures same { SameLent images.old images.new }
{
    let b = r.b;
    images.write(r.target, r.q, b.further(done), n, given)
}

// The last destination sector done, as it reads now, goes to the buffer's front.
pub fn keep_done(r: Route, done: usize, buffer: &mut [u8; 512], images: [&[u8]; 4])
    requires { (r.target < 4) × Fits r.q (image_of r.target (map (λ image. image.now) images))
        × (r.b.0 + done ≤ address_count r.q) }
    ensures { buffer.new ≡ splice 0 (last_read r done (map (λ image. image.now) images.entry)) buffer.old }
{
    if done == 0 {
        return;
    }
    let size = r.q.size;
    let b = r.b;
    read_on(
        r.target,
        r.q,
        b.further(done - 1),
        1,
        &mut buffer[0..size],
        images,
    );
}
