// One sector's data in a track, which is its own stretch of the image.
ghost use Rattle.std.specs.Prelude.{◌≡◌, ◌<◌, length};
ghost use Rattle.base.specs.Part.{part};
ghost use Rattle.geometry.specs.Params.{Within, slot_size, track_size};
ghost use Rattle.track.specs.Image.{slot_bytes, with_data};

use base::bytes::move_bytes;
use geometry::params::Params;

// Stores a sector's D data bytes in slot k.
pub fn write_data(track: &mut [u8], p: Params, k: usize, sector: &[u8])
    requires { Within p × (length track.old ≡ track_size p) × (k < p.sectors) × (length sector.now ≡ p.size) }
    ensures { track.new ≡ with_data p k sector.now track.old }
{
    let start = k * p.slot_size() + 8;
    let end = start + p.size;
    move_bytes(&mut track[start..end], sector);
}
