// Initialize.
ghost use Rattle.std.specs.Prelude.{◌≡◌, ◌&&◌, ◌≤◌, length};
ghost use Rattle.geometry.specs.Config.{setting_of, is_valid, precompensation_in};
ghost use Rattle.model.specs.Commands.{initialize};
ghost use Rattle.model.specs.Premises.{WellFormed};

use codes::Code;
use endings::ending::{failed, good};
use geometry::config::{config_in, label_holds, setting_of};
use geometry::medium::{Medium, medium_of};
use model::block::Block;
use model::record::{Drive, Ending};

// Whether precompensation begins on the disk or at its end. Floppies' bytes 7 and 8 are not read.
#[tactic(auto, unfolding(geometry::specs::Config::precompensation_in, geometry::specs::Medium::is_floppy))]
fn precompensation_in(medium: Medium, config: [u8; 10]) -> bool
    ensures { result ≡ precompensation_in medium config }
{
    medium == Medium::Floppy
        || u16::from_be_bytes([config[7], config[8]]) <= u16::from_be_bytes([config[0], config[1]])
}

// Whether bytes that no label holds may come into force: valid, with precompensation in its bound.
fn may_come_in(medium: Medium, config: [u8; 10], image: usize) -> bool
    ensures { result ≡ (is_valid (setting_of medium config image) && precompensation_in medium config) }
{
    setting_of(medium, config, image).is_some() && precompensation_in(medium, config)
}

// The label's own bytes come into force, not pending; others pending, if they may come in; else 22h.
pub fn initialize(entry: Drive, b: Block, given: &[u8], image: &[u8]) -> Ending
    requires { WellFormed b × (10 ≤ length given.now) }
    ensures { result ≡ initialize b given.now entry image.now }
{
    let config = config_in(given);
    let drive = b.drive;
    let medium = medium_of(drive);
    let held = label_holds(medium, image, config);
    let fits = may_come_in(medium, config, image.len());
    let taken = held | fits;
    if !taken {
        return failed(entry, drive, drive, Code::NotValid, b.address, 0, 0);
    }
    let next = Drive {
        config,
        known: true,
        pending: !held,
        ..entry
    };
    good(next, drive, 0, 0)
}
