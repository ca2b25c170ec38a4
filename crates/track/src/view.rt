// A track's stretch of an image, to be read slot by slot.
ghost use Rattle.std.specs.Prelude.{◌≡◌, ◌<◌, length};
ghost use Rattle.geometry.specs.Params.{Within, track_count, slot_size, track_size};
ghost use Rattle.track.specs.Image.{Fits, track_bytes, slot_bytes, slot_id, slot_data};

use geometry::params::{Params, Track};

// The stretch, and the parameters that cut it into slots.
#[derive(Clone, Copy)]
pub struct TrackView<'a> {
    pub bytes: &'a [u8],
    pub p: Params,
    ghost within: { Within p },
    ghost whole: { length bytes.now ≡ track_size p },
}

impl<'a> TrackView<'a> {
    // Slot k, as that part of the image.
    pub fn slot(self, k: usize) -> &'a [u8]
        requires { k < self.p.sectors }
        ensures { (result.now ≡ slot_bytes self.entry.p k self.entry.bytes.now) × (length result.now ≡ slot_size self.entry.p) }
    {
        let bytes = self.bytes;
        let size = self.p.slot_size();
        let start = k * size;
        let end = start + size;
        &bytes[start..end]
    }

    // Its ID bytes.
    pub fn id(self, k: usize) -> &'a [u8]
        requires { k < self.p.sectors }
        ensures { (result.now ≡ slot_id self.entry.p k self.entry.bytes.now) × (length result.now ≡ 8) }
    {
        &self.slot(k)[..8]
    }

    // Its data bytes.
    pub fn data(self, k: usize) -> &'a [u8]
        requires { k < self.p.sectors }
        ensures { (result.now ≡ slot_data self.entry.p k self.entry.bytes.now) × (length result.now ≡ self.entry.p.size) }
    {
        &self.slot(k)[8..]
    }
}

// Track t of an image.
pub fn track_of(image: &[u8], p: Params, t: Track) -> TrackView<'_>
    requires { Fits p image.now × (t.0 < track_count p) }
    ensures { (result.p ≡ p) × (result.bytes.now ≡ track_bytes p t image.now) }
{
    let stretch = p.stretch(t);
    let start = stretch.start;
    let end = stretch.end;
    TrackView {
        bytes: &image[start..end],
        p,
    }
}
