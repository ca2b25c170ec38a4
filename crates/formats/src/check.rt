// Check Track.
ghost use Rattle.std.specs.Prelude.{◌≡◌};
ghost use Rattle.model.specs.Commands.{check_track};
ghost use Rattle.model.specs.Premises.{OnTrack};

use endings::ending::{failed, good};
use geometry::params::Params;
use interleave::layout;
use model::block::Block;
use model::record::{Drive, Ending};

pub fn check_track(entry: Drive, b: Block, p: Params, image: &[u8]) -> Ending
    requires { OnTrack b p image.now }
    ensures { result ≡ check_track b p entry image.now }
{
    let drive = b.drive;
    let at = b.address;
    let n = p.sectors;
    let map = layout(n, b.extra as usize);
    match formatter::check::check_track(image, p, p.track_of(at), &map[0..n]) {
        Err(code) => failed(entry, drive, drive, code, at, 0, 0),
        Ok(()) => good(entry, drive, 0, 0),
    }
}
