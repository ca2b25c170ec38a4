// A drive's ten configuration bytes, and the label that holds them.
ghost use Rattle.std.specs.Prelude.{◌≡◌, ◌≤◌, ◌<◌, length};
ghost use Rattle.base.specs.Part.{part};
ghost use Rattle.geometry.specs.Params.{Within};
ghost use Rattle.geometry.specs.Config.{size_for, params_of, fitted_to, fields_in, setting_by, setting_of, label_setting, label_holds};

use crate::medium::{Medium, Ranges, ranges_of};
use crate::params::Params;

// Data bytes a sector and sectors a track.
#[derive(Clone, Copy)]
pub struct Size {
    pub bytes: usize,
    pub sectors: usize,
}

// By byte 4 of the configuration.
static SIZES: [Size; 3] = [
    Size {
        bytes: 128,
        sectors: 16,
    },
    Size {
        bytes: 256,
        sectors: 32,
    },
    Size {
        bytes: 512,
        sectors: 17,
    },
];

#[tactic(auto, unfolding(crate::specs::Config::size_for))]
fn size_for(byte: u8) -> Size
    requires { byte ≤ 2 }
    ensures { result ≡ size_for byte }
{
    SIZES[usize::from(byte)]
}

// Parameters of a size.
fn sized(cylinders: u32, heads: u8, s: Size) -> Params
    ensures { result ≡ params_of cylinders heads s }
{
    Params {
        cylinders,
        heads: u32::from(heads),
        sectors: s.sectors,
        size: s.bytes,
    }
}

// The parameters, if the image is long enough for them.
#[tactic(auto, using(base::proofs::Decide::decide), unfolding(crate::specs::Config::fitted_to))]
fn fitted(p: Params, image: usize) -> Option<Params>
    requires { Within p }
    ensures { result ≡ fitted_to p image }
{
    if image < p.image_length() {
        return None;
    }
    Some(p)
}

// Whether the fields of a configuration are in their ranges.
#[tactic(auto, unfolding(crate::specs::Config::fields_in))]
fn fields_in(ranges: Ranges, cylinders: u32, heads: u8, step: u8, size: u8, burst: u8) -> bool
    ensures { result ≡ fields_in ranges cylinders heads step size burst }
{
    ranges.cylinders.contains(cylinders)
        && ranges.heads.contains(u32::from(heads))
        && ranges.step.contains(u32::from(step / 16))
        && ranges.nibble.contains(u32::from(step % 16))
        && ranges.size.contains(u32::from(size))
        && ranges.burst.contains(u32::from(burst))
}

// The decision on a configuration's fields.
fn setting_by(
    medium: Medium,
    cylinders: u32,
    heads: u8,
    step: u8,
    size: u8,
    burst: u8,
    image: usize,
) -> Option<Params>
    ensures { result ≡ setting_by medium cylinders heads step size burst image }
{
    if !fields_in(ranges_of(medium), cylinders, heads, step, size, burst) {
        return None;
    }
    fitted(sized(cylinders, heads, size_for(size)), image)
}

// The parameters of a configuration, if it is valid on this medium with an image of this length.
pub fn setting_of(medium: Medium, config: [u8; 10], image: usize) -> Option<Params>
    ensures { result ≡ setting_of medium config image }
{
    setting_by(
        medium,
        u32::from(u16::from_be_bytes([config[0], config[1]])),
        config[2],
        config[3],
        config[4],
        config[9],
        image,
    )
}

// The ten configuration bytes at the front of a label, or of data given.
#[tactic(auto, unfolding(base::specs::Part::part))]
pub fn config_in(bytes: &[u8]) -> [u8; 10]
    requires { 10 ≤ length bytes.now }
    ensures { result ≡ part 0 10 bytes.now }
{
    let mut config = [0u8; 10];
    config.copy_from_slice(&bytes[..10]);
    config
}

// The parameters of an image's label, if it is valid. An image under 16 bytes has none.
pub fn label_setting(medium: Medium, image: &[u8]) -> Option<Params>
    ensures { result ≡ label_setting medium image.now }
{
    if image.len() < 16 {
        return None;
    }
    // The six bytes behind the configuration, as one number: compared as a slice they are a call, and a Reset takes a quarter more.
    let rest = u64::from_be_bytes([
        0, 0, image[10], image[11], image[12], image[13], image[14], image[15],
    ]);
    if rest != 0 {
        return None;
    }
    setting_of(medium, config_in(image), image.len())
}

// Whether these ten bytes are those of an image's valid label.
pub fn label_holds(medium: Medium, image: &[u8], config: [u8; 10]) -> bool
    ensures { result ≡ label_holds medium image.now config }
{
    let setting = label_setting(medium, image);
    match setting {
        None => false,
        Some(_) => config_in(image) == config,
    }
}
