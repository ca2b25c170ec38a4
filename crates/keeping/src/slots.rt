// Whether a track can be moved with its contents, and the slot of each of its sectors. Each slot is looked at once for its sector, before any
// write.
ghost use Rattle.std.specs.Prelude.{◌≡◌, ◌≤◌, ◌<◌, length, get_or, replicate, is_some, None};
ghost use Rattle.base.specs.Pick.{pick};
ghost use Rattle.base.specs.First.{every_below};
ghost use Rattle.codes.specs.Numbers.{end_number};
ghost use Rattle.geometry.specs.Params.{Within, track_count, track_size};
ghost use Rattle.track.specs.Image.{Fits};
ghost use Rattle.track.specs.Search.{Noted};
ghost use Rattle.keeping.specs.Keep.{keep_code, Located};

use codes::Code;
use geometry::params::{Params, Track};
use track::find::where_is;
use track::search::note;
use track::view::{TrackView, track_of};

// Notes each of a track's slots under its sector, the first one of each.
fn note_all(track: TrackView<'_>, slots: &mut [Option<u8>])
    requires { (length slots.old ≡ 32) × Noted track.p track.bytes.now slots.old 0 }
    ensures { (length slots.new ≡ 32) × Noted track.entry.p track.entry.bytes.now slots.new track.entry.p.sectors }
{
    let p = track.p;
    for k in 0..p.sectors {
        note(slots, track.id(k), k as u8);
    }
}

// Whether each of the first n sectors has a slot noted.
fn each_noted(slots: &[Option<u8>], n: usize) -> Result<(), Code>
    requires { n ≤ length slots.now }
    ensures { end_number result ≡ pick (every_below (λ s. is_some (get_or slots.now s None)) n) 0 0x14 }
{
    // No `contains`: it looks at four at a time, which is long code.
    for s in 0..n {
        if slots[s].is_none() {
            return Err(Code::NoSector);
        }
    }
    Ok(())
}

// Whether every sector of track t is found; then the slot of each is noted.
// A call: in line in dispatch it costs every command registers.
#[inline(never)]
pub fn keep_code(image: &[u8], p: Params, t: Track, slots: &mut [Option<u8>]) -> Result<(), Code>
    requires { Fits p image.now × (t.0 < track_count p) × (slots.old ≡ replicate 32 None) }
    ensures { (end_number result ≡ keep_code p t image.now) × (length slots.new ≡ 32)
        × (end_number result ≡ 0 → Located p t slots.new image.now) }
{
    let u = where_is(image, p, t)?;
    note_all(track_of(image, p, u), slots);
    each_noted(slots, p.sectors)
}
