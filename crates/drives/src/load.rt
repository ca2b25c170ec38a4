// A drive after Reset.
ghost use Rattle.std.specs.Prelude.{◌≡◌};
ghost use Rattle.model.specs.Record.{blank_drive};
ghost use Rattle.model.specs.Engine.{loaded};

use geometry::config::{config_in, label_setting};
use geometry::medium::medium_of;
use model::record::Drive;

fn blank_drive() -> Drive
    ensures { result ≡ blank_drive }
{
    Drive {
        sense: [0; 4],
        config: [0; 10],
        known: false,
        pending: false,
    }
}

// A drive after Reset: a valid label is in force.
pub fn load(drive: u8, image: &[u8]) -> Drive
    ensures { result ≡ loaded drive image.now }
{
    match label_setting(medium_of(drive), image) {
        None => blank_drive(),
        Some(_) => Drive {
            config: config_in(image),
            known: true,
            ..blank_drive()
        },
    }
}
