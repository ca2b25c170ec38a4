// Sectors of one track that follow each other, read and written. A run looks at each slot's ID at most once.
ghost use Rattle.std.specs.Prelude.{◌≡◌, ◌+◌, ◌*◌, ◌≤◌, ◌<◌, length};
ghost use Rattle.base.specs.Part.{splice};
ghost use Rattle.geometry.specs.Params.{Within, track_size};
ghost use Rattle.sectors.specs.Run.{run_done, run_read, run_written};

use base::bytes::move_bytes;
use geometry::params::Params;
use track::search::look_for;
use track::sector::write_data;
use track::view::TrackView;

// Reads m sectors from s on to their places, up to the first that no slot has. Answers how many.
pub fn read_run(track: TrackView<'_>, s: usize, m: usize, places: &mut [u8]) -> usize
    requires { (s + m ≤ track.p.sectors) × (length places.old ≡ m * track.p.size) }
    ensures { (result ≡ run_done track.entry.p m s track.entry.bytes.now)
        × (places.new ≡ splice 0 (run_read track.entry.p m s track.entry.bytes.now) places.old) }
{
    let p = track.p;
    let size = p.size;
    let mut slots = [None; 32];
    let mut looked = 0;
    let mut at = 0;
    for sector in s..s + m {
        looked = look_for(track, &mut slots, looked, sector);
        let Some(k) = slots[sector] else {
            return sector - s;
        };
        let end = at + size;
        move_bytes(&mut places[at..end], track.data(k as usize));
        at = end;
    }
    m
}

// Writes m sectors from s on, up to the first that no slot has. Answers how many. Beside `read_run`, which is lent the track to read: one
// form for both would be a trait with laws, which is longer than the two.
pub fn write_run(track: &mut [u8], p: Params, s: usize, m: usize, given: &[u8]) -> usize
    requires { Within p × (length track.old ≡ track_size p) × (s + m ≤ p.sectors) × (length given.now ≡ m * p.size) }
    ensures { (result ≡ run_done p m s track.old)
        × (track.new ≡ run_written p m s given.now track.old) }
{
    let size = p.size;
    let mut slots = [None; 32];
    let mut looked = 0;
    let mut at = 0;
    for sector in s..s + m {
        looked = look_for(TrackView { bytes: &*track, p }, &mut slots, looked, sector);
        let Some(k) = slots[sector] else {
            return sector - s;
        };
        let end = at + size;
        write_data(track, p, k as usize, &given[at..end]);
        at = end;
    }
    m
}
