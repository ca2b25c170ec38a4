// Why a command is not carried out: the codes that a sense gives, and the numbers of a refusal.
#![tactic(auto)]

ghost use Rattle.std.specs.Prelude.{◌≡◌, ◌<◌};
ghost use Rattle.codes.specs.Numbers.{number_of, refusal_number};

// A command was taken and failed.
#[derive(Clone, Copy)]
pub enum Code {
    // no image is lent for the drive
    Absent,
    // none in force that are valid with the image
    NoParameters,
    // the track's first ID has a flag above 3
    UnknownFlag,
    // the track has no ID where its first must be
    NoId,
    // no slot of the track holds the sector
    NoSector,
    // the track's first ID is another track's
    OtherTrack,
    // the parameters in force are not the disk's
    Pending,
    // the track is flagged as bad
    BadTrack,
    // Check Track: the IDs are not those of this interleave
    OtherIds,
    // the track is in use as an alternate
    Taken,
    // one of a pair of tracks would be freed or used twice
    Paired,
    // a moved track's alternate does not name it back
    NoPartner,
    // Assign Alternate: the alternate is moved or bad
    UnfitAlternate,
    UnknownCommand,
    // an address past the last track
    PastEnd,
    // a field of the block, an interleave, a configuration, a Copy onto its own source
    NotValid,
    // Copy: zeros complete the last sector, which was written
    PartlyFilled,
}

impl Code {
    // As document 01 numbers it.
    pub fn number(self) -> u8
        ensures { (result ≡ number_of self) × (result < 0x80) }
    {
        match self {
            Code::Absent => 0x04,
            Code::NoParameters => 0x0A,
            Code::UnknownFlag => 0x10,
            Code::NoId => 0x12,
            Code::NoSector => 0x14,
            Code::OtherTrack => 0x15,
            Code::Pending => 0x16,
            Code::BadTrack => 0x19,
            Code::OtherIds => 0x1A,
            Code::Taken => 0x1C,
            Code::Paired => 0x1D,
            Code::NoPartner => 0x1E,
            Code::UnfitAlternate => 0x1F,
            Code::UnknownCommand => 0x20,
            Code::PastEnd => 0x21,
            Code::NotValid => 0x22,
            Code::PartlyFilled => 0x23,
        }
    }
}

// A command was not taken: nothing is changed.
#[derive(Clone, Copy)]
pub enum Refusal {
    // the block is not as long as its first byte says
    Block,
    // less data is given than the command takes
    Given,
    // the data area is shorter than what the command hands over
    Area,
}

impl Refusal {
    // As document 01 numbers it.
    pub fn number(self) -> u8
        ensures { result ≡ refusal_number self }
    {
        match self {
            Refusal::Block => 1,
            Refusal::Given => 2,
            Refusal::Area => 3,
        }
    }
}
