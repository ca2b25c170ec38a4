// Assign Alternate.
ghost use Rattle.std.specs.Prelude.{◌≡◌, [], ◌∷◌, ◌≤◌, ◌<◌, length};
ghost use Rattle.geometry.specs.Params.{track_count, track_of};
ghost use Rattle.track.specs.Image.{Fits};
ghost use Rattle.track.specs.Pair.{state_of};
ghost use Rattle.model.specs.Checks.{on, judged};
ghost use Rattle.model.specs.Record.{made, good as good_ending};
ghost use Rattle.model.specs.Commands.{fill_of, assign_tests, assigned, assign_alternate};
ghost use Rattle.model.specs.Premises.{OnTrack};
ghost use Rattle.alternates.specs.Faults.{fault_verdict};

use crate::keep::assign_kept;
use checks::block::{alternate_of, keeps_contents};
use codes::Code;
use endings::ending::{failed, good};
use formats::making::{fill_of, make_at, plain_fill};
use geometry::medium::medium_of;
use geometry::params::{Lba, Params, Track};
use model::block::Block;
use model::record::{Drive, Ending};
use track::pair::state_of;
use track::state::State;

// The faults of a pair of tracks, in document 01's order.
fn pair_faults(
    a: Lba,
    alternate: Lba,
    moved: bool,
    taken: bool,
    same: bool,
    away: bool,
    unfit: bool,
) -> Result<(), (Code, Lba)>
    ensures { fault_verdict result ≡ judged
        (on moved 0x1D a ∷ on taken 0x1C a ∷ on same 0x22 a ∷ on away 0x1D alternate ∷ on unfit 0x1F alternate ∷ []) }
{
    if moved {
        return Err((Code::Paired, a));
    }
    if taken {
        return Err((Code::Taken, a));
    }
    if same {
        return Err((Code::NotValid, a));
    }
    if away {
        return Err((Code::Paired, alternate));
    }
    if unfit {
        return Err((Code::UnfitAlternate, alternate));
    }
    Ok(())
}

// Assign Alternate's own checks, up to what is missing in A.
fn assign_faults(
    image: &[u8],
    p: Params,
    first: u8,
    a: Lba,
    alternate: Lba,
) -> Result<(), (Code, Lba)>
    requires { Fits p image.now × ((track_of p a).0 < track_count p) }
    ensures { fault_verdict result ≡ judged (assign_tests p first a alternate
        (state_of p (track_of p a) image.now) (state_of p (track_of p alternate) image.now) 0) }
{
    if 0x1F < first {
        return Err((Code::NotValid, a));
    }
    let last = p.last_address();
    if alternate > last {
        return Err((Code::PastEnd, alternate));
    }
    let from = p.track_of(a);
    let to = p.track_of(alternate);
    let one = state_of(image, p, from);
    let other = state_of(image, p, to);
    pair_faults(
        a,
        alternate,
        one.is_moved(),
        one.is_taken(),
        to == from,
        other.is_taken_by_other(from),
        other.is_moved() | other.is_bad(),
    )
}

// A as moved to B, with the plain fill; B as taken by A.
fn make_pair(image: &mut [u8], b: Block, p: Params, from: Track, to: Track, fill: &[u8])
    requires { Fits p image.old × (from.0 < track_count p) × (to.0 < track_count p) × (b.extra < p.sectors) × (length fill.now ≡ p.size) }
    ensures { image.new ≡ assigned b p from to fill.now image.old }
{
    let size = p.size;
    let plain = plain_fill(medium_of(b.drive), p);
    make_at(image, b, p, from, State::Moved(to), &plain[0..size]);
    make_at(image, b, p, to, State::Taken(from), fill);
}

// Both formatted; the buffer's fill reaches B only.
fn assign_formatted(
    entry: Drive,
    b: Block,
    p: Params,
    buffer: &[u8; 512],
    to: Track,
    image: &mut [u8],
) -> Ending
    requires { OnTrack b p image.old × (to.0 < track_count p) }
    ensures { made result image.new ≡ made (good_ending b.drive 0 0 entry)
        (assigned b p (track_of p b.address) to (fill_of b p buffer.now) image.old) }
{
    let size = p.size;
    let fill = fill_of(b, p, buffer);
    make_pair(image, b, p, p.track_of(b.address), to, &fill[0..size]);
    good(entry, b.drive, 0, 0)
}

pub fn assign_alternate(
    entry: Drive,
    b: Block,
    p: Params,
    buffer: &[u8; 512],
    given: &[u8],
    image: &mut [u8],
) -> Ending
    requires { OnTrack b p image.old × (3 ≤ length given.now) }
    ensures { made result image.new ≡ assign_alternate b p buffer.now given.now entry image.old }
{
    let drive = b.drive;
    let alternate = alternate_of(given);
    if let Err((code, place)) = assign_faults(image, p, given[0], b.address, alternate) {
        return failed(entry, drive, drive, code, place, 0, 0);
    }
    if keeps_contents(b) {
        return assign_kept(entry, b, p, given, image);
    }
    assign_formatted(entry, b, p, buffer, p.track_of(alternate), image)
}
