// A drive as the checks see it.
ghost use Rattle.std.specs.Prelude.{◌≡◌};
ghost use Rattle.geometry.specs.Medium.{medium_of};
ghost use Rattle.model.specs.Record.{setting_in};
ghost use Rattle.model.specs.Engine.{view_of};

use geometry::config::setting_of;
use geometry::medium::{Medium, medium_of};
use geometry::params::Params;
use model::record::Drive;
use model::verdict::View;

// A drive's parameters in force, judged anew with the image lent.
fn setting_in(medium: Medium, entry: Drive, image: usize) -> Option<Params>
    ensures { result ≡ setting_in medium entry image }
{
    if entry.known {
        let config = entry.config;
        return setting_of(medium, config, image);
    }
    None
}

// By the drive's number, its entry and the length of its image.
pub fn view_of(drive: u8, entry: Drive, image: usize) -> View
    ensures { result ≡ view_of (medium_of drive) entry image }
{
    let medium = medium_of(drive);
    View {
        medium,
        present: 16 <= image,
        setting: setting_in(medium, entry, image),
        pending: entry.pending,
    }
}
