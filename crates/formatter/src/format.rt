// Formatting: one walk over a track's slots, each step of which writes one slot whole.
ghost use Rattle.std.specs.Prelude.{◌≡◌, ◌++◌, ◌+◌, ◌-◌, ◌*◌, ◌≤◌, ◌<◌, length};
ghost use Rattle.geometry.specs.Params.{track_count};
ghost use Rattle.track.specs.State.{partner_of};
ghost use Rattle.track.specs.Id.{with_sector};
ghost use Rattle.track.specs.Image.{Fits, with_track};
ghost use Rattle.formatter.specs.Format.{stepped, under_way, formatted, sound_from};

use crate::fill::Fill;
use geometry::params::{Params, Track};
use track::id::{Id, id_bytes, id_for};
use track::state::State;

#[tactic(auto, unfolding(track::specs::Id::with_sector))]
fn with_sector(id: Id, s: u8) -> Id
    ensures { result ≡ with_sector id s }
{
    Id { sector: s, ..id }
}

// A slot, whole: the bytes of its ID, then its data.
// In line first: the ID is then one store in the object code.
#[inline(always)]
fn write_slot(slot: &mut [u8], id: &[u8], fill: Fill)
    requires { length slot.old ≡ length id.now + length fill.bytes.now }
    ensures { slot.new ≡ id.now ++ fill.entry.bytes.now }
{
    let at = id.len();
    slot[..at].copy_from_slice(id);
    fill.write(&mut slot[at..]);
}

// A step of a format: slot k of the track, which is lent its own stretch of the image.
fn format_step(track: &mut [u8], id: Id, map: &[u8], fill: Fill, k: usize)
    requires { (length track.old ≡ length map.now * (8 + length fill.bytes.now)) × (k < length map.now) × (id.partner.0 < 65536) }
    ensures { track.new ≡ stepped id map.now fill.entry.bytes.now k track.old }
{
    let start = k * (8 + fill.bytes.len());
    let body = start + 8;
    let end = body + fill.bytes.len();
    let bytes = id_bytes(with_sector(id, map[k]));
    write_slot(&mut track[start..end], &bytes, fill);
}

// The first `count` steps, in slot order.
fn format_slots(track: &mut [u8], id: Id, map: &[u8], fill: Fill, count: usize)
    requires { (length track.old ≡ length map.now * (8 + length fill.bytes.now)) × (count ≤ length map.now) × (id.partner.0 < 65536) }
    ensures { track.new ≡ under_way id map.now fill.entry.bytes.now count track.old }
{
    for k in 0..count {
        format_step(track, id, map, fill, k);
    }
}

// Formats track t of an image.
fn format_as(image: &mut [u8], p: Params, t: Track, state: State, map: &[u8], fill: Fill)
    requires { Fits p image.old × (t.0 < track_count p) × ((partner_of state).0 < 65536) × (length map.now ≡ p.sectors)
        × (length fill.bytes.now ≡ p.size) }
    ensures { image.new ≡ with_track p t (formatted p t state map.now fill.entry.bytes.now) image.old }
{
    let place = p.stretch(t);
    let start = place.start;
    let end = place.end;
    let id = id_for(p, t, state, 0);
    format_slots(&mut image[start..end], id, map, fill, map.len());
}

// The same, and looks at the fill first.
pub fn format_at(image: &mut [u8], p: Params, t: Track, state: State, map: &[u8], fill: &[u8])
    requires { Fits p image.old × (t.0 < track_count p) × ((partner_of state).0 < 65536) × (length map.now ≡ p.sectors)
        × (length fill.now ≡ p.size) }
    ensures { image.new ≡ with_track p t (formatted p t state map.now fill.now) image.old }
{
    format_as(image, p, t, state, map, Fill::new(fill));
}

// Formats the tracks from `first` to the last as sound.
pub fn format_from(image: &mut [u8], p: Params, first: Track, map: &[u8], fill: &[u8])
    requires { Fits p image.old × (first.0 ≤ track_count p) × (length map.now ≡ p.sectors) × (length fill.now ≡ p.size) }
    ensures { image.new ≡ sound_from p map.now fill.now (track_count p - first.0) first image.old }
{
    let fill = Fill::new(fill);
    for t in first.0..p.tracks() {
        format_as(image, p, Track::numbered(t), State::Sound, map, fill);
    }
}
