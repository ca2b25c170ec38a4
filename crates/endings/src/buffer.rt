// The commands that move the sense and the buffer.
ghost use Rattle.std.specs.Prelude.{◌≡◌, ◌≤◌, ◌<◌, length};
ghost use Rattle.base.specs.Part.{part, splice};
ghost use Rattle.model.specs.Record.{good_answer, good};

use crate::ending::good;
use model::record::{Answer, Drive, Ending};

// Request Sense: the sense stays as it is.
pub fn request_sense(entry: Drive, drive: u8, area: &mut [u8]) -> Ending
    requires { (drive < 4) × (4 ≤ length area.old) }
    ensures { (result ≡ record { entry = entry; answer = good_answer drive 0 (length entry.sense) })
        × (area.new ≡ splice 0 entry.sense area.old) }
{
    let sense = entry.sense;
    area[..4].copy_from_slice(&sense);
    Ending {
        entry,
        answer: Answer {
            number: 0,
            status: 32 * drive,
            message: 0,
            sectors: 0,
            bytes: 4,
        },
    }
}

pub fn read_buffer(entry: Drive, drive: u8, buffer: &[u8; 512], area: &mut [u8]) -> Ending
    requires { (drive < 4) × (512 ≤ length area.old) }
    ensures { (result ≡ good drive 0 512 entry) × (area.new ≡ splice 0 buffer.now area.old) }
{
    area[..512].copy_from_slice(buffer);
    good(entry, drive, 0, 512)
}

#[tactic(auto, unfolding(base::specs::Part::part))]
pub fn write_buffer(entry: Drive, drive: u8, buffer: &mut [u8; 512], given: &[u8]) -> Ending
    requires { (drive < 4) × (512 ≤ length given.now) }
    ensures { (result ≡ good drive 0 0 entry) × (buffer.new ≡ part 0 512 given.now) }
{
    buffer.copy_from_slice(&given[..512]);
    good(entry, drive, 0, 0)
}
