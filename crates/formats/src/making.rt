// Tracks and the label made anew.
ghost use Rattle.std.specs.Prelude.{◌≡◌, ◌++◌, ◌≤◌, ◌<◌, length};
ghost use Rattle.base.specs.Part.{part, splice};
ghost use Rattle.geometry.specs.Params.{track_count, track_of};
ghost use Rattle.geometry.specs.Config.{label_rest};
ghost use Rattle.track.specs.State.{partner_of};
ghost use Rattle.track.specs.Image.{Fits};
ghost use Rattle.model.specs.Commands.{plain_byte, plain_fill, fill_of, made_at, drive_formatted};

use checks::block::from_buffer;
use formatter::format::{format_at, format_from};
use geometry::medium::{Medium, medium_of};
use geometry::params::{Params, Track};
use interleave::layout;
use model::block::Block;
use track::state::State;

// The byte of a medium's plain fill.
fn plain_byte(medium: Medium) -> u8
    ensures { result ≡ plain_byte medium }
{
    match medium {
        Medium::HardDisk => 0x6C,
        Medium::Floppy => 0xE5,
    }
}

// 512 of it: the first D of them fill a sector.
pub fn plain_fill(medium: Medium, p: Params) -> [u8; 512]
    requires { p.size ≤ 512 }
    ensures { (part 0 p.size result ≡ plain_fill medium p) × (length result ≡ 512) }
{
    [plain_byte(medium); 512]
}

// The first D bytes are what a format with this block fills sectors with.
pub fn fill_of(b: Block, p: Params, buffer: &[u8; 512]) -> [u8; 512]
    requires { p.size ≤ 512 }
    ensures { (part 0 p.size result ≡ fill_of b p buffer.now) × (length result ≡ 512) }
{
    let medium = medium_of(b.drive);
    if from_buffer(b) & (medium != Medium::Floppy) {
        let mut fill = [0u8; 512];
        fill.copy_from_slice(buffer);
        return fill;
    }
    plain_fill(medium, p)
}

// Formats one track with the block's interleave.
pub fn make_at(image: &mut [u8], b: Block, p: Params, t: Track, state: State, fill: &[u8])
    requires { Fits p image.old × (t.0 < track_count p) × ((partner_of state).0 < 65536) × (b.extra < p.sectors)
        × (length fill.now ≡ p.size) }
    ensures { image.new ≡ made_at b p t state fill.now image.old }
{
    let n = p.sectors;
    let map = layout(n, b.extra as usize);
    format_at(image, p, t, state, &map[0..n], fill);
}

// The configuration in force and six zeros, over the label.
fn write_label(image: &mut [u8], config: [u8; 10])
    requires { 16 ≤ length image.old }
    ensures { image.new ≡ splice 0 (config ++ label_rest) image.old }
{
    let mut label = [0u8; 16];
    label[..10].copy_from_slice(&config);
    image[..16].copy_from_slice(&label);
}

// Formats the tracks from the block's on, then writes the label.
pub fn make_drive(image: &mut [u8], b: Block, p: Params, config: [u8; 10], fill: &[u8])
    requires { Fits p image.old × ((track_of p b.address).0 < track_count p) × (b.extra < p.sectors) × (length fill.now ≡ p.size) }
    ensures { image.new ≡ drive_formatted b p config fill.now image.old }
{
    let n = p.sectors;
    let map = layout(n, b.extra as usize);
    format_from(image, p, p.track_of(b.address), &map[0..n], fill);
    write_label(image, config);
}
