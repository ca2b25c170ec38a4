// The commands by their groups, once the checks have passed.
ghost use Rattle.std.specs.Prelude.{◌≡◌, length};
ghost use Rattle.model.specs.Record.{made};
ghost use Rattle.model.specs.Commands.{do_free, do_arm, do_track, do_sectors};
ghost use Rattle.model.specs.Premises.{WellFormed, OnTrack};
ghost use Rattle.endings.specs.Left.{left_now, left_by};
ghost use Rattle.dispatch.specs.Ready.{FreeReady, TrackReady, SectorReady};

use alternates::assign::assign_alternate;
use drives::initialize::initialize;
use endings::buffer::{read_buffer, request_sense, write_buffer};
use endings::ending::good;
use formats::check::check_track;
use formats::format::{format_bad, format_drive, format_sound};
use geometry::params::Params;
use model::block::Block;
use model::record::{Drive, Ending};
use model::table::{ArmCommand, FreeCommand, SectorCommand, TrackCommand};
use transfers::read::read;
use transfers::write::write;

// The commands that need no parameters.
pub fn do_free(
    entry: Drive,
    b: Block,
    buffer: &mut [u8; 512],
    given: &[u8],
    area: &mut [u8],
    image: &[u8],
    command: FreeCommand,
) -> Ending
    requires { WellFormed b × FreeReady command (length given.now) (length area.old) }
    ensures { left_now result buffer.new area.new image.now
        ≡ left_by (do_free b given.now entry buffer.old image.now command) area.old }
{
    let drive = b.drive;
    match command {
        FreeCommand::RequestSense => request_sense(entry, drive, area),
        FreeCommand::WriteBuffer => write_buffer(entry, drive, buffer, given),
        FreeCommand::ReadBuffer => read_buffer(entry, drive, buffer, area),
        FreeCommand::Initialize => initialize(entry, b, given, image),
    }
}

// Checks only.
pub fn do_arm(entry: Drive, b: Block, command: ArmCommand) -> Ending
    requires { WellFormed b }
    ensures { result ≡ do_arm b entry command }
{
    let drive = b.drive;
    match command {
        ArmCommand::TestReady | ArmCommand::Recalibrate | ArmCommand::Seek => {
            good(entry, drive, 0, 0)
        }
    }
}

// Formats, Check Track and Assign Alternate.
pub fn do_track(
    entry: Drive,
    b: Block,
    p: Params,
    buffer: &[u8; 512],
    given: &[u8],
    image: &mut [u8],
    command: TrackCommand,
) -> Ending
    requires { OnTrack b p image.old × TrackReady command (length given.now) }
    ensures { made result image.new ≡ do_track b p buffer.now given.now entry image.old command }
{
    match command {
        TrackCommand::FormatDrive => format_drive(entry, b, p, buffer, image),
        TrackCommand::CheckTrack => check_track(entry, b, p, image),
        TrackCommand::FormatTrack => format_sound(entry, b, p, buffer, image),
        TrackCommand::FormatBadTrack => format_bad(entry, b, p, image),
        TrackCommand::AssignAlternate => assign_alternate(entry, b, p, buffer, given, image),
    }
}

// Read and Write.
pub fn do_sectors(
    entry: Drive,
    b: Block,
    p: Params,
    buffer: &mut [u8; 512],
    given: &[u8],
    area: &mut [u8],
    image: &mut [u8],
    command: SectorCommand,
) -> Ending
    requires { SectorReady command b p image.old (length given.now) (length area.old) }
    ensures { left_now result buffer.new area.new image.new
        ≡ left_by (do_sectors b p given.now entry buffer.old image.old command) area.old }
{
    match command {
        SectorCommand::Read => read(entry, b, p, buffer, area, image),
        SectorCommand::Write => write(entry, b, p, buffer, given, image),
    }
}
