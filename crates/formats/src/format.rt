// Format Drive, Format Track and Format Bad Track.
ghost use Rattle.std.specs.Prelude.{◌≡◌, ◌<◌, length};
ghost use Rattle.geometry.specs.Medium.{medium_of};
ghost use Rattle.track.specs.declared.state.State.TheVariants.{Sound, Bad};
ghost use Rattle.track.specs.State.{partner_of};
ghost use Rattle.model.specs.Record.{made};
ghost use Rattle.model.specs.Commands.{plain_fill, fill_of, pending_ended, format_drive, format_track};
ghost use Rattle.model.specs.Premises.{OnTrack};

use crate::making::{fill_of, make_at, make_drive, plain_fill};
use codes::Code;
use endings::ending::{failed, good};
use geometry::medium::medium_of;
use geometry::params::Params;
use model::block::Block;
use model::record::{Drive, Ending};
use track::pair::{splits_pair, state_of};
use track::state::State;

// A drive is no longer pending.
fn end_pending(entry: Drive) -> Drive
    ensures { result ≡ pending_ended entry }
{
    Drive {
        pending: false,
        ..entry
    }
}

pub fn format_drive(
    entry: Drive,
    b: Block,
    p: Params,
    buffer: &[u8; 512],
    image: &mut [u8],
) -> Ending
    requires { OnTrack b p image.old }
    ensures { made result image.new ≡ format_drive b p buffer.now entry image.old }
{
    let drive = b.drive;
    let at = b.address;
    if splits_pair(image, p, p.track_of(at)) {
        return failed(entry, drive, drive, Code::Paired, at, 0, 0);
    }
    let size = p.size;
    let fill = fill_of(b, p, buffer);
    let config = entry.config;
    make_drive(image, b, p, config, &fill[0..size]);
    good(end_pending(entry), drive, 0, 0)
}

// The block's track becomes sound or bad, its sectors filled, unless it is moved or taken.
fn format_track(
    entry: Drive,
    b: Block,
    p: Params,
    state: State,
    fill: &[u8],
    image: &mut [u8],
) -> Ending
    requires { OnTrack b p image.old × ((partner_of state).0 < 65536) × (length fill.now ≡ p.size) }
    ensures { made result image.new ≡ format_track b p state fill.now entry image.old }
{
    let drive = b.drive;
    let at = b.address;
    let t = p.track_of(at);
    let old = state_of(image, p, t);
    if old.is_moved() {
        return failed(entry, drive, drive, Code::Paired, at, 0, 0);
    }
    if old.is_taken() {
        return failed(entry, drive, drive, Code::Taken, at, 0, 0);
    }
    make_at(image, b, p, t, state, fill);
    good(entry, drive, 0, 0)
}

// Format Track.
pub fn format_sound(
    entry: Drive,
    b: Block,
    p: Params,
    buffer: &[u8; 512],
    image: &mut [u8],
) -> Ending
    requires { OnTrack b p image.old }
    ensures { made result image.new ≡ format_track b p Sound (fill_of b p buffer.now) entry image.old }
{
    let size = p.size;
    let fill = fill_of(b, p, buffer);
    format_track(entry, b, p, State::Sound, &fill[0..size], image)
}

// Format Bad Track.
pub fn format_bad(entry: Drive, b: Block, p: Params, image: &mut [u8]) -> Ending
    requires { OnTrack b p image.old }
    ensures { made result image.new ≡ format_track b p Bad (plain_fill (medium_of b.drive) p) entry image.old }
{
    let size = p.size;
    let fill = plain_fill(medium_of(b.drive), p);
    format_track(entry, b, p, State::Bad, &fill[0..size], image)
}
