// The search for a track's sectors among its slots, in one pass: each slot's ID is looked at once at the most.
ghost use Rattle.std.specs.Prelude.{◌≡◌, ◌≤◌, ◌<◌, length, get_or, None};
ghost use Rattle.geometry.specs.Params.{Within, track_size};
ghost use Rattle.track.specs.Id.{id_in};
ghost use Rattle.track.specs.Find.{slot_used};
ghost use Rattle.track.specs.Search.{note_of, noted, Noted};

use crate::find::holds;
use crate::id::ID_MARK;
use crate::view::TrackView;

// Notes slot k under its sector, unless one is noted there.
pub fn note(slots: &mut [Option<u8>], slot: &[u8], k: u8)
    requires { (length slots.old ≡ 32) × (8 ≤ length slot.now) }
    ensures { slots.new ≡ noted (id_in slot.now) k slots.old }
{
    if slot[0] != ID_MARK {
        return;
    }
    let s = slot[4] as usize;
    if 32 <= s {
        return;
    }
    if slots[s].is_none() {
        slots[s] = Some(k);
    }
}

// Looks at the slots from `looked` on, until one is noted for sector s. Answers how many have been looked at. The sector is compared
// as it is read: to read its note back after each slot took longer.
pub fn look_for(track: TrackView<'_>, slots: &mut [Option<u8>], looked: usize, s: usize) -> usize
    requires { (length slots.old ≡ 32) × (looked ≤ track.p.sectors) × (s < track.p.sectors)
        × Noted track.p track.bytes.now slots.old looked }
    ensures { (length slots.new ≡ 32) × (result ≤ track.entry.p.sectors) × Noted track.entry.p track.entry.bytes.now slots.new result
        × (get_or slots.new s None ≡ note_of (slot_used track.entry.p s track.entry.bytes.now)) }
{
    if slots[s].is_some() {
        return looked;
    }
    let p = track.p;
    let n = p.sectors;
    for k in looked..n {
        let id = track.id(k);
        if holds(id, s) {
            slots[s] = Some(k as u8);
            return k + 1;
        }
        note(slots, id, k as u8);
    }
    n
}
