// Finding a sector, in any image: where the search for a track's sectors goes on, and the slot that holds the sector there.
ghost use Rattle.std.specs.Prelude.{◌≡◌, ◌&&◌, ◌≤◌, ◌<◌, eqb, length};
ghost use Rattle.geometry.specs.Params.{Within, track_count, track_size};
ghost use Rattle.track.specs.Id.{id_in};
ghost use Rattle.track.specs.Image.{Fits, first_id};
ghost use Rattle.track.specs.Find.{taken_by, where_by, where_of, as_where, slot_used, sector_in, sector_found, as_sector};

use crate::id::{ID_MARK, Id, first_id, is_own};
use crate::view::{TrackView, track_of};
use codes::Code;
use geometry::params::{Params, Track};

// The track and the slot that a sector is in.
#[derive(Clone, Copy)]
pub struct Place {
    pub track: Track,
    pub slot: usize,
}

// By a track's slot 0: whether it says that the track is taken by t.
fn says_taken_by(t: Track, id: Id, own_id: bool) -> bool
    ensures { result ≡ (eqb id.mark 0xA1 && own_id && eqb id.flag 3 && eqb id.partner.0 t.0) }
{
    id.mark == ID_MARK && own_id && id.flag == 3 && id.partner == t
}

// Whether track u, if there is one, is taken by t.
fn is_taken_by(image: &[u8], p: Params, t: Track, u: Track) -> bool
    requires { Fits p image.now }
    ensures { result ≡ taken_by p t u (first_id p u image.now) }
{
    if !p.has_track(u) {
        return false;
    }
    let id = first_id(image, p, u);
    says_taken_by(t, id, is_own(p, u, id))
}

// The decision by slot 0.
#[tactic(auto, using(base::proofs::Decide::decide), unfolding(crate::specs::Find::where_by))]
fn where_by(t: Track, id: Id, own: bool, taken: bool) -> Result<Track, Code>
    ensures { as_where result ≡ where_by t id «own» «taken» }
{
    if id.mark != ID_MARK {
        return Err(Code::NoId);
    }
    if !own {
        return Err(Code::OtherTrack);
    }
    // by the flag as it is on the disk, where any byte may stand
    match id.flag {
        0 => Ok(t),
        1 => Err(Code::BadTrack),
        2 if taken => Ok(id.partner),
        2 => Err(Code::NoPartner),
        3 => Err(Code::Taken),
        _ => Err(Code::UnknownFlag),
    }
}

// The track whose slots are searched for t's sectors. The partner is asked for only where there is one.
pub fn where_is(image: &[u8], p: Params, t: Track) -> Result<Track, Code>
    requires { Fits p image.now × (t.0 < track_count p) }
    ensures { as_where result ≡ where_of p t image.now }
{
    let id = first_id(image, p, t);
    let own = is_own(p, t, id);
    if id.flag != 2 {
        return where_by(t, id, own, false);
    }
    let partner = id.partner;
    let taken = is_taken_by(image, p, t, partner);
    where_by(t, id, own, taken)
}

// Whether a slot with these ID bytes holds sector s.
#[tactic(auto, unfolding(crate::specs::Id::id_in))]
pub fn holds(id: &[u8], s: usize) -> bool
    requires { 8 ≤ length id.now }
    ensures { result ≡ (eqb (id_in id.now).mark 0xA1 && eqb (id_in id.now).sector s) }
{
    id[0] == ID_MARK && usize::from(id[4]) == s
}

// The first slot of track u that holds sector s.
fn find_in(track: TrackView<'_>, u: Track, s: usize) -> Result<Place, Code>
    ensures { as_sector result ≡ sector_in u (slot_used track.entry.p s track.entry.bytes.now) }
{
    let p = track.p;
    for k in 0..p.sectors {
        if holds(track.id(k), s) {
            return Ok(Place { track: u, slot: k });
        }
    }
    Err(Code::NoSector)
}

// Finds sector s of track t: the track and the slot that it is in, or the error.
pub fn find_sector(image: &[u8], p: Params, t: Track, s: usize) -> Result<Place, Code>
    requires { Fits p image.now × (t.0 < track_count p) × (s < p.sectors) }
    ensures { as_sector result ≡ sector_found p t s image.now }
{
    let u = where_is(image, p, t)?;
    find_in(track_of(image, p, u), u, s)
}
