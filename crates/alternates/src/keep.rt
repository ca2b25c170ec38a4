// Assign Alternate with keep (request E7): A is moved to B with its contents.
ghost use Rattle.std.specs.Prelude.{◌≡◌, ◌≤◌, length};
ghost use Rattle.base.specs.Byte.{byte};
ghost use Rattle.geometry.specs.Params.{track_of};
ghost use Rattle.interleave.specs.Layout.{layout_of};
ghost use Rattle.track.specs.Pair.{state_of};
ghost use Rattle.keeping.specs.Keep.{keep_code, kept};
ghost use Rattle.model.specs.Verdicts.{Passed};
ghost use Rattle.model.specs.Block.{alternate_of};
ghost use Rattle.model.specs.Checks.{judged};
ghost use Rattle.model.specs.Record.{made, unless, good as good_ending};
ghost use Rattle.model.specs.Commands.{assign_tests, check_tests};
ghost use Rattle.model.specs.Premises.{OnTrack};

use checks::block::alternate_of;
use endings::ending::{failed, good};
use geometry::params::Params;
use interleave::layout;
use keeping::slots::keep_code;
use keeping::step::keep;
use model::block::Block;
use model::record::{Drive, Ending};

// The other checks have passed: a sector of A that is missing is an error before any write.
pub fn assign_kept(entry: Drive, b: Block, p: Params, given: &[u8], image: &mut [u8]) -> Ending
    requires { OnTrack b p image.old × (3 ≤ length given.now)
        × (judged (assign_tests p (byte given.now 0) b.address (alternate_of given.now)
        (state_of p (track_of p b.address) image.old) (state_of p (track_of p (alternate_of given.now)) image.old) 0) ≡ Passed) }
    ensures { made result image.new ≡ unless (judged (check_tests (keep_code p (track_of p b.address) image.old) b.address))
        b.drive entry (λ e. made e image.old)
        (made (good_ending b.drive 0 0 entry) (kept p (track_of p b.address) (track_of p (alternate_of given.now))
        (layout_of p.sectors b.extra) image.old)) }
{
    let drive = b.drive;
    let at = b.address;
    let from = p.track_of(at);
    let mut slots = [None; 32];
    if let Err(code) = keep_code(image, p, from, &mut slots) {
        return failed(entry, drive, drive, code, at, 0, 0);
    }
    let n = p.sectors;
    let map = layout(n, b.extra as usize);
    keep(
        image,
        p,
        from,
        p.track_of(alternate_of(given)),
        &map[0..n],
        &slots,
    );
    good(entry, drive, 0, 0)
}
