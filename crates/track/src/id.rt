// A slot's ID bytes.
ghost use Rattle.std.specs.Prelude.{◌≡◌, ◌+◌, ◌≤◌, ◌<◌, length};
ghost use Rattle.geometry.specs.Params.{Within, track_count};
ghost use Rattle.track.specs.Id.{id_bytes, id_in, id_for, own_id};
ghost use Rattle.track.specs.Image.{Fits, first_id};

use crate::state::State;
use crate::view::track_of;
use geometry::params::{Params, Track};

pub const ID_MARK: u8 = 0xA1;

// What the 8 ID bytes of a slot say.
#[derive(Clone, Copy)]
pub struct Id {
    pub mark: u8,
    pub cylinder: u16,
    pub head: u8,
    pub sector: u8,
    pub flag: u8,
    pub partner: Track,
}

// The ID of sector s in a track of this state.
#[tactic(auto, unfolding(crate::specs::Id::id_for))]
pub fn id_for(p: Params, t: Track, state: State, s: u8) -> Id
    requires { Within p × (t.0 < track_count p) }
    ensures { result ≡ id_for p t state s }
{
    Id {
        mark: ID_MARK,
        cylinder: p.cylinder_of(t),
        head: p.head_of(t),
        sector: s,
        flag: state.flag(),
        partner: state.partner(),
    }
}

// The 8 ID bytes, as they are written.
#[tactic(auto, unfolding(crate::specs::Id::id_bytes))]
pub fn id_bytes(id: Id) -> [u8; 8]
    requires { id.partner.0 < 65536 }
    ensures { result ≡ id_bytes id }
{
    let partner = id.partner;
    let [cylinder_high, cylinder_low] = id.cylinder.to_be_bytes();
    let [partner_high, partner_low] = partner.to_be_bytes();
    [
        id.mark,
        cylinder_high,
        cylinder_low,
        id.head,
        id.sector,
        id.flag,
        partner_high,
        partner_low,
    ]
}

// Reads the 8 ID bytes of a slot.
#[tactic(auto, unfolding(crate::specs::Id::id_in))]
fn read_id(slot: &[u8]) -> Id
    requires { 8 ≤ length slot.now }
    ensures { result ≡ id_in slot.now }
{
    Id {
        mark: slot[0],
        cylinder: u16::from_be_bytes([slot[1], slot[2]]),
        head: slot[3],
        sector: slot[4],
        flag: slot[5],
        partner: Track::from([slot[6], slot[7]]),
    }
}

// Whether an ID's cylinder and head are the track's own.
#[tactic(auto, unfolding(crate::specs::Id::own_id))]
pub fn is_own(p: Params, t: Track, id: Id) -> bool
    requires { Within p × (t.0 < track_count p) }
    ensures { result ≡ own_id p t id }
{
    id.cylinder == p.cylinder_of(t) && id.head == p.head_of(t)
}

// The ID of a track's slot 0.
pub fn first_id(image: &[u8], p: Params, t: Track) -> Id
    requires { Fits p image.now × (t.0 < track_count p) }
    ensures { result ≡ first_id p t image.now }
{
    read_id(track_of(image, p, t).id(0))
}
