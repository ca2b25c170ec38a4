// A command on its drive's entry and image, from its block on.
ghost use Rattle.std.specs.Prelude.{◌≡◌, Some, length};
ghost use Rattle.geometry.specs.Medium.{medium_of};
ghost use Rattle.model.specs.declared.table.Command.TheVariants.{OnDisk};
ghost use Rattle.model.specs.Table.{row_for};
ghost use Rattle.model.specs.Record.{setting_in};
ghost use Rattle.model.specs.Commands.{do_disk, carry_out};
ghost use Rattle.model.specs.Engine.{obey};
ghost use Rattle.model.specs.Premises.{WellFormed};
ghost use Rattle.endings.specs.Left.{left_now, left_by};
ghost use Rattle.dispatch.specs.Ready.{Admitted};

use crate::groups::{do_arm, do_free, do_sectors, do_track};
use checks::order::judge;
use codes::Code;
use drives::view::view_of;
use endings::ending::{failed, refused};
use geometry::params::Params;
use model::block::Block;
use model::record::{Drive, Ending};
use model::table::{Command, DiskCommand};
use model::verdict::Stop;
use table::rows::row_of;

// A command that needs parameters, with those in force.
fn do_disk(
    entry: Drive,
    b: Block,
    p: Params,
    buffer: &mut [u8; 512],
    given: &[u8],
    area: &mut [u8],
    image: &mut [u8],
    command: DiskCommand,
) -> Ending
    requires { Admitted b entry (length given.now) (length area.old) (length image.old)
        × ((row_for b.opcode).command ≡ OnDisk command)
        × (setting_in (medium_of b.drive) entry (length image.old) ≡ Some p) }
    ensures { left_now result buffer.new area.new image.new
        ≡ left_by (do_disk b p given.now entry buffer.old image.old command) area.old }
{
    match command {
        DiskCommand::ArmWork(work) => do_arm(entry, b, work),
        DiskCommand::TrackWork(work) => do_track(entry, b, p, buffer, given, image, work),
        DiskCommand::SectorWork(work) => do_sectors(entry, b, p, buffer, given, area, image, work),
    }
}

// The same where there may be none in force, which the order of checks has asked before.
fn with_setting(
    entry: Drive,
    b: Block,
    setting: Option<Params>,
    buffer: &mut [u8; 512],
    given: &[u8],
    area: &mut [u8],
    image: &mut [u8],
    command: DiskCommand,
) -> Ending
    requires { Admitted b entry (length given.now) (length area.old) (length image.old)
        × ((row_for b.opcode).command ≡ OnDisk command)
        × (setting_in (medium_of b.drive) entry (length image.old) ≡ setting) }
    ensures { left_now result buffer.new area.new image.new
        ≡ left_by (carry_out b setting given.now entry buffer.old image.old (OnDisk command)) area.old }
{
    match setting {
        Some(p) => do_disk(entry, b, p, buffer, given, area, image, command),
        None => failed(entry, b.drive, b.drive, Code::NoParameters, b.address, 0, 0),
    }
}

fn carry_out(
    entry: Drive,
    b: Block,
    setting: Option<Params>,
    buffer: &mut [u8; 512],
    given: &[u8],
    area: &mut [u8],
    image: &mut [u8],
    command: Command,
) -> Ending
    requires { Admitted b entry (length given.now) (length area.old) (length image.old)
        × ((row_for b.opcode).command ≡ command)
        × (setting_in (medium_of b.drive) entry (length image.old) ≡ setting) }
    ensures { left_now result buffer.new area.new image.new
        ≡ left_by (carry_out b setting given.now entry buffer.old image.old command) area.old }
{
    match command {
        Command::Free(work) => do_free(entry, b, buffer, given, area, image, work),
        Command::OnDisk(work) => with_setting(entry, b, setting, buffer, given, area, image, work),
        // no block of six bytes is a Copy
        Command::Unknown | Command::Copy => failed(
            entry,
            b.drive,
            b.drive,
            Code::UnknownCommand,
            b.address,
            0,
            0,
        ),
    }
}

// A command of six bytes, on the entry and the image of the drive that it names.
pub fn obey(
    entry: Drive,
    b: Block,
    buffer: &mut [u8; 512],
    given: &[u8],
    area: &mut [u8],
    image: &mut [u8],
) -> Ending
    requires { WellFormed b }
    ensures { left_now result buffer.new area.new image.new
        ≡ left_by (obey b given.now (length area.old) entry buffer.old image.old) area.old }
{
    let row = row_of(b.opcode);
    let command = row.command;
    let view = view_of(b.drive, entry, image.len());
    let setting = view.setting;
    match judge(row, b, view, given.len(), area.len()) {
        Err(Stop::Refuse(refusal)) => refused(entry, refusal),
        Err(Stop::Fail(code, at)) => failed(entry, b.drive, b.drive, code, at, 0, 0),
        Ok(()) => carry_out(entry, b, setting, buffer, given, area, image, command),
    }
}
