// A drive's entry of the four, taken and put.
ghost use Rattle.std.specs.Prelude.{◌≡◌, ◌<◌, get_or, set};
ghost use Rattle.model.specs.Record.{blank_drive};

use model::record::Drive;

// The entry of a drive.
pub fn drive_at(drives: [Drive; 4], drive: u8) -> Drive
    requires { drive < 4 }
    ensures { result ≡ get_or drives drive blank_drive }
{
    drives[drive as usize]
}

// The entries of the others stay.
// In line first, as are its callers, so that the four entries are copied less often.
#[inline(always)]
pub fn with_drive(drives: [Drive; 4], drive: u8, entry: Drive) -> [Drive; 4]
    requires { drive < 4 }
    ensures { result ≡ set drives drive entry }
{
    let mut other = drives;
    other[drive as usize] = entry;
    other
}
