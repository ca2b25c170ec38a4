// The commands, by what they need: to carry one out is to match its group, then the command.
#[derive(Clone, Copy)]
pub enum Command {
    // no parameters
    Free(FreeCommand),
    // parameters in force: else 0Ah
    OnDisk(DiskCommand),
    // parameters in force on two drives
    Copy,
    Unknown,
}

#[derive(Clone, Copy)]
pub enum FreeCommand {
    RequestSense,
    WriteBuffer,
    ReadBuffer,
    Initialize,
}

#[derive(Clone, Copy)]
pub enum DiskCommand {
    ArmWork(ArmCommand),
    TrackWork(TrackCommand),
    SectorWork(SectorCommand),
}

#[derive(Clone, Copy)]
pub enum ArmCommand {
    TestReady,
    Recalibrate,
    Seek,
}

#[derive(Clone, Copy)]
pub enum TrackCommand {
    FormatDrive,
    CheckTrack,
    FormatTrack,
    FormatBadTrack,
    AssignAlternate,
}

#[derive(Clone, Copy)]
pub enum SectorCommand {
    Read,
    Write,
}

// The kinds of data that a command takes or hands over.
#[derive(Clone, Copy)]
pub enum Data {
    Nothing,
    Sense,
    Alternate,
    Configuration,
    Buffer,
    Sectors,
}
