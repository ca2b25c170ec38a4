// Check Track's comparison of a track's ID bytes.
ghost use Rattle.std.specs.Prelude.{ℕ, ◌≡◌, ◌<◌, length, get_or};
ghost use Rattle.codes.specs.Numbers.{end_number};
ghost use Rattle.geometry.specs.Params.{Within, track_count, track_size};
ghost use Rattle.track.specs.Id.{id_bytes};
ghost use Rattle.track.specs.Image.{Fits};
ghost use Rattle.formatter.specs.Number.{number_of};
ghost use Rattle.formatter.specs.Check.{ids_are, home_state, check_code};

use codes::Code;
use geometry::params::{Params, Track};
use track::find::where_is;
use track::id::{Id, id_bytes, id_for};
use track::state::State;
use track::view::{TrackView, track_of};

// Eight bytes as a number, high byte first: cheaper to compare than byte after byte.
fn number_of(bytes: &[u8]) -> u64
    requires { length bytes.now ≡ 8 }
    ensures { (result ≡ number_of bytes.now) × ((i : ℕ) → get_or bytes.now i 0 < 256) }
{
    u64::from_be_bytes([
        bytes[0], bytes[1], bytes[2], bytes[3], bytes[4], bytes[5], bytes[6], bytes[7],
    ])
}

// The number of the 8 ID bytes of this ID.
fn id_number(id: Id) -> u64
    requires { id.partner.0 < 65536 }
    ensures { result ≡ number_of (id_bytes id) }
{
    number_of(&id_bytes(id))
}

// Whether every slot of a track's stretch has the ID that a format writes there.
fn ids_are(track: TrackView<'_>, id: Id, map: &[u8]) -> bool
    requires { (length map.now ≡ track.p.sectors) × (id.partner.0 < 65536) × (id.sector ≡ 0) }
    ensures { result ≡ ids_are track.entry.p id map.now track.entry.bytes.now }
{
    let first = id_number(id);
    for (k, sector) in map.iter().enumerate() {
        // the sector is byte 4
        let right = first + (*sector as u64) * 0x1000000;
        if number_of(track.id(k)) != right {
            return false;
        }
    }
    true
}

#[tactic(auto, using(base::proofs::Decide::decide), unfolding(crate::specs::Check::home_state))]
fn home_state(t: Track, u: Track) -> State
    ensures { result ≡ home_state t u }
{
    if u == t {
        return State::Sound;
    }
    State::Taken(t)
}

// Check Track for track t and the map of an interleave.
pub fn check_track(image: &[u8], p: Params, t: Track, map: &[u8]) -> Result<(), Code>
    requires { Fits p image.now × (t.0 < track_count p) × (length map.now ≡ p.sectors) }
    ensures { end_number result ≡ check_code p t map.now image.now }
{
    let u = where_is(image, p, t)?;
    let id = id_for(p, u, home_state(t, u), 0);
    if ids_are(track_of(image, p, u), id, map) {
        Ok(())
    } else {
        Err(Code::OtherIds)
    }
}
