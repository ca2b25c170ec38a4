// The commands as one constant table, indexed by opcode.
ghost use Rattle.std.specs.Prelude.{◌≡◌};
ghost use Rattle.model.specs.Table.{row_for};
ghost use Rattle.table.specs.Rows.{Says};

use model::table::{
    ArmCommand, Command, Data, DiskCommand, FreeCommand, SectorCommand, TrackCommand,
};

// The checks that apply to a command.
#[derive(Clone, Copy)]
pub struct Checks {
    // hard disks only: 22h on a floppy
    pub hard_only: bool,
    // control bits
    pub control: bool,
    // control bit 5 is defined
    pub fill_bit: bool,
    // control bit 4 is defined
    pub keep_bit: bool,
    // 04h
    pub present: bool,
    // 0Ah
    pub parameters: bool,
    // byte 4 is an interleave
    pub interleave: bool,
    // 21h
    pub address: bool,
    // byte 4 is a count
    pub counted: bool,
    // 16h
    pub settled: bool,
    // but not from track 0 on
    pub spared_whole: bool,
}

const NO_CHECKS: Checks = Checks {
    hard_only: false,
    control: false,
    fill_bit: false,
    keep_bit: false,
    present: false,
    parameters: false,
    interleave: false,
    address: false,
    counted: false,
    settled: false,
    spared_whole: false,
};

const ON_DRIVE: Checks = Checks {
    present: true,
    parameters: true,
    ..NO_CHECKS
};

const AT_ADDRESS: Checks = Checks {
    control: true,
    address: true,
    settled: true,
    ..ON_DRIVE
};

const FORMATTING: Checks = Checks {
    interleave: true,
    ..AT_ADDRESS
};

const ON_HARD_DISK: Checks = Checks {
    hard_only: true,
    ..FORMATTING
};

#[derive(Clone, Copy)]
pub struct Row {
    pub command: Command,
    pub checks: Checks,
    pub takes: Data,
    pub gives: Data,
}

const UNKNOWN: Row = Row {
    command: Command::Unknown,
    checks: NO_CHECKS,
    takes: Data::Nothing,
    gives: Data::Nothing,
};

static TABLE: [Row; 18] = [
    Row {
        command: Command::OnDisk(DiskCommand::ArmWork(ArmCommand::TestReady)),
        checks: ON_DRIVE,
        takes: Data::Nothing,
        gives: Data::Nothing,
    },
    Row {
        command: Command::OnDisk(DiskCommand::ArmWork(ArmCommand::Recalibrate)),
        checks: ON_DRIVE,
        takes: Data::Nothing,
        gives: Data::Nothing,
    },
    UNKNOWN,
    Row {
        command: Command::Free(FreeCommand::RequestSense),
        checks: NO_CHECKS,
        takes: Data::Nothing,
        gives: Data::Sense,
    },
    Row {
        command: Command::OnDisk(DiskCommand::TrackWork(TrackCommand::FormatDrive)),
        checks: Checks {
            fill_bit: true,
            spared_whole: true,
            ..FORMATTING
        },
        takes: Data::Nothing,
        gives: Data::Nothing,
    },
    Row {
        command: Command::OnDisk(DiskCommand::TrackWork(TrackCommand::CheckTrack)),
        checks: ON_HARD_DISK,
        takes: Data::Nothing,
        gives: Data::Nothing,
    },
    Row {
        command: Command::OnDisk(DiskCommand::TrackWork(TrackCommand::FormatTrack)),
        checks: Checks {
            fill_bit: true,
            ..FORMATTING
        },
        takes: Data::Nothing,
        gives: Data::Nothing,
    },
    Row {
        command: Command::OnDisk(DiskCommand::TrackWork(TrackCommand::FormatBadTrack)),
        checks: FORMATTING,
        takes: Data::Nothing,
        gives: Data::Nothing,
    },
    Row {
        command: Command::OnDisk(DiskCommand::SectorWork(SectorCommand::Read)),
        checks: Checks {
            counted: true,
            ..AT_ADDRESS
        },
        takes: Data::Nothing,
        gives: Data::Sectors,
    },
    UNKNOWN,
    Row {
        command: Command::OnDisk(DiskCommand::SectorWork(SectorCommand::Write)),
        checks: Checks {
            counted: true,
            ..AT_ADDRESS
        },
        takes: Data::Sectors,
        gives: Data::Nothing,
    },
    Row {
        command: Command::OnDisk(DiskCommand::ArmWork(ArmCommand::Seek)),
        checks: AT_ADDRESS,
        takes: Data::Nothing,
        gives: Data::Nothing,
    },
    UNKNOWN,
    UNKNOWN,
    Row {
        command: Command::OnDisk(DiskCommand::TrackWork(TrackCommand::AssignAlternate)),
        checks: Checks {
            fill_bit: true,
            keep_bit: true,
            ..ON_HARD_DISK
        },
        takes: Data::Alternate,
        gives: Data::Nothing,
    },
    Row {
        command: Command::Free(FreeCommand::WriteBuffer),
        checks: NO_CHECKS,
        takes: Data::Buffer,
        gives: Data::Nothing,
    },
    Row {
        command: Command::Free(FreeCommand::ReadBuffer),
        checks: NO_CHECKS,
        takes: Data::Nothing,
        gives: Data::Buffer,
    },
    Row {
        command: Command::Free(FreeCommand::Initialize),
        checks: Checks {
            present: true,
            ..NO_CHECKS
        },
        takes: Data::Configuration,
        gives: Data::Nothing,
    },
];

// The row at 20h. The table ends at 11h: the rows between, all of them unknown, would be bytes of the archive.
const COPY: Row = Row {
    command: Command::Copy,
    checks: Checks {
        counted: true,
        ..AT_ADDRESS
    },
    takes: Data::Nothing,
    gives: Data::Nothing,
};

// What the table says of an opcode.
pub fn row_of(opcode: u8) -> &'static Row
    ensures { Says result.now (row_for opcode) }
{
    if opcode < 18 {
        return &TABLE[opcode as usize];
    }
    if opcode == 0x20 {
        return &COPY;
    }
    &UNKNOWN
}
