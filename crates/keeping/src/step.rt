// The writes of a move, one a call: what stands in the image between two calls is what power may fail on.
ghost use Rattle.std.specs.Prelude.{◌≡◌, ◌+◌, ◌*◌, ◌≤◌, ◌<◌, length};
ghost use Rattle.base.specs.Part.{splice};
ghost use Rattle.geometry.specs.Params.{Within, track_count};
ghost use Rattle.track.specs.State.{partner_of};
ghost use Rattle.track.specs.Id.{id_bytes, id_for};
ghost use Rattle.track.specs.Image.{Fits, track_bytes, slot_data};
ghost use Rattle.keeping.specs.Keep.{slot_start, after_write, write_with, noted_data, after_writes, kept, Mapped, Noting, Located, Keepable};

use base::bytes::copy_within;
use geometry::params::{Params, Track};
use track::id::{id_bytes, id_for};
use track::state::State;

// Where slot k of track t begins in an image.
fn slot_start(p: Params, t: Track, k: usize) -> usize
    requires { Within p × (t.0 < track_count p) × (k < p.sectors) }
    ensures { result ≡ slot_start p t k }
{
    let place = p.stretch(t);
    place.start + k * p.slot_size()
}

// The ID of slot k of track t.
fn write_id(image: &mut [u8], p: Params, t: Track, state: State, k: usize, s: u8)
    requires { Fits p image.old × (t.0 < track_count p) × ((partner_of state).0 < 65536) × (k < p.sectors) }
    ensures { image.new ≡ splice (slot_start p t k) (id_bytes (id_for p t state s)) image.old }
{
    let start = slot_start(p, t, k);
    let bytes = id_bytes(id_for(p, t, state, s));
    image[start..start + 8].copy_from_slice(&bytes);
}

// The data of slot k of track `to`: those in slot j of track `from`, copied once.
fn write_body(image: &mut [u8], p: Params, from: Track, j: usize, to: Track, k: usize)
    requires { Fits p image.old × (from.0 < track_count p) × (j < p.sectors) × (to.0 < track_count p) × (k < p.sectors) }
    ensures { image.new ≡ splice (slot_start p to k + 8) (slot_data p j (track_bytes p from image.old)) image.old }
{
    let source = slot_start(p, from, j) + 8;
    let place = slot_start(p, to, k) + 8;
    copy_within(image, source, place, p.size);
}

// Write i of a move; `slots` has the slot of each sector of track `from`. Which write it is goes by a number, since what holds after a
// power failure is said of the first i writes (`write_with`).
pub fn keep_step(
    image: &mut [u8],
    p: Params,
    from: Track,
    to: Track,
    map: &[u8],
    slots: &[Option<u8>],
    i: usize,
)
    requires { Fits p image.old × (from.0 < track_count p) × (to.0 < track_count p) × Mapped p.sectors map.now
        × Noting p.sectors slots.now × (i < p.sectors * 3) }
    ensures { image.new ≡ after_write p
        (write_with p from to map.now (noted_data p from slots.now image.old) i) image.old }
{
    let copies = p.sectors * 2;
    if copies <= i {
        let slot = i - copies;
        write_id(image, p, from, State::Moved(to), slot, map[slot]);
        return;
    }
    let k = i / 2;
    let s = map[k];
    if i % 2 == 0 {
        write_id(image, p, to, State::Taken(from), k, s);
        return;
    }
    let j = slots[s as usize].unwrap();
    write_body(image, p, from, j as usize, to, k);
}

// The first `count` writes of a move: what power can leave, but for the one under way.
pub fn keep_steps(
    image: &mut [u8],
    p: Params,
    from: Track,
    to: Track,
    map: &[u8],
    slots: &[Option<u8>],
    count: usize,
)
    requires { Fits p image.old × Mapped p.sectors map.now × Keepable p from to image.old × (length slots.now ≡ 32)
        × Located p from slots.now image.old × (count ≤ p.sectors * 3) }
    ensures { image.new ≡ after_writes p from to map.now image.old count }
{
    for i in 0..count {
        keep_step(image, p, from, to, map, slots, i);
    }
}

// The whole move.
#[tactic(auto, unfolding(crate::specs::Keep::kept))]
pub fn keep(image: &mut [u8], p: Params, from: Track, to: Track, map: &[u8], slots: &[Option<u8>])
    requires { Fits p image.old × Mapped p.sectors map.now × Keepable p from to image.old × (length slots.now ≡ 32)
        × Located p from slots.now image.old }
    ensures { image.new ≡ kept p from to map.now image.old }
{
    keep_steps(image, p, from, to, map, slots, p.sectors * 3);
}
