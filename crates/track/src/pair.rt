// A track as the format commands see it.
ghost use Rattle.std.specs.Prelude.{◌≡◌, ◌<◌};
ghost use Rattle.geometry.specs.Params.{track_count};
ghost use Rattle.track.specs.Image.{Fits};
ghost use Rattle.track.specs.Pair.{state_by, state_of, one_below, splits, pair_split};

use crate::id::{ID_MARK, Id, first_id, is_own};
use crate::state::State;
use geometry::params::{Params, Track};

// The decision by slot 0.
#[tactic(auto, using(base::proofs::Decide::decide), unfolding(crate::specs::Pair::state_by))]
fn state_by(id: Id, own: bool) -> State
    ensures { result ≡ state_by id «own» }
{
    if id.mark != ID_MARK || !own {
        return State::Sound;
    }
    // by the flag as it is on the disk, where any byte may stand
    match id.flag {
        1 => State::Bad,
        2 => State::Moved(id.partner),
        3 => State::Taken(id.partner),
        _ => State::Sound,
    }
}

// The state that the format commands go by. A track that is neither bad, moved nor taken counts as sound, whatever is in it.
pub fn state_of(image: &[u8], p: Params, t: Track) -> State
    requires { Fits p image.now × (t.0 < track_count p) }
    ensures { result ≡ state_of p t image.now }
{
    let id = first_id(image, p, t);
    state_by(id, is_own(p, t, id))
}

// Whether exactly one of tracks t and u is below s.
#[tactic(auto, unfolding(crate::specs::Pair::one_below))]
fn one_below(s: Track, t: Track, u: Track) -> bool
    ensures { result ≡ one_below s t u }
{
    (t < s) != (u < s)
}

// Whether a format from track s on would free one of a pair and not the other.
#[tactic(auto, unfolding(crate::specs::Pair::splits))]
fn is_split(s: Track, t: Track, state: State) -> bool
    ensures { result ≡ splits s t state }
{
    match state {
        State::Sound | State::Bad => false,
        State::Moved(u) | State::Taken(u) => one_below(s, t, u),
    }
}

// Whether track t is of a pair that a format from track s on would split. With flag 0 or 1, as most have, it is of none: that
// byte is looked at first, since the whole state takes a division.
fn splits_at(image: &[u8], p: Params, s: Track, t: Track) -> bool
    requires { Fits p image.now × (t.0 < track_count p) }
    ensures { result ≡ splits s t (state_of p t image.now) }
{
    let id = first_id(image, p, t);
    2 <= id.flag && is_split(s, t, state_of(image, p, t))
}

// Whether some track of the drive is of a pair that a format from track s on would split.
pub fn splits_pair(image: &[u8], p: Params, s: Track) -> bool
    requires { Fits p image.now }
    ensures { result ≡ pair_split p s image.now }
{
    for t in 0..p.tracks() {
        if splits_at(image, p, s, Track::numbered(t)) {
            return true;
        }
    }
    false
}
