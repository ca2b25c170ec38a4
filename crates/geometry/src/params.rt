// Addresses and tracks, and what a drive's parameters say of them.
ghost use Rattle.std.specs.Prelude.{◌≡◌, ◌+◌, ◌*◌, ◌/◌, ◌%◌, ◌≤◌, ◌<◌, ltb, [], ◌∷◌};
ghost use Rattle.base.specs.Byte.{byte};
ghost use Rattle.geometry.specs.Params.{Within, track_count, last_address, slot_size, track_size, image_length, track_start, track_of, sector_of, cylinder_of, head_of, lba_of, further, track};

// A logical address.
#[derive(Clone, Copy, PartialEq, Eq, PartialOrd, Ord)]
pub struct Lba(pub u32);

// A track's number.
#[derive(Clone, Copy, PartialEq, Eq, PartialOrd, Ord)]
pub struct Track(pub u32);

// Three bytes, high byte first.
impl From<[u8; 3]> for Lba {
    ghost from_gives = { λ bytes a. a ≡ lba_of (byte bytes 0) (byte bytes 1) (byte bytes 2) };

    fn from(bytes: [u8; 3]) -> Lba {
        let [high, middle, low] = bytes;
        Lba(u32::from_be_bytes([0, high, middle, low]))
    }
}

impl Lba {
    // The address n further on.
    pub fn further(self, n: usize) -> Lba
        requires { self.0 + n < 4294967296 }
        ensures { result ≡ further self n }
    {
        Lba(self.0 + n as u32)
    }

    // The three low bytes, high byte first.
    pub fn to_be_bytes(self) -> [u8; 3]
        ensures { result ≡ self.0 / 65536 % 256 ∷ self.0 / 256 % 256 ∷ self.0 % 256 ∷ [] }
    {
        let [_, high, middle, low] = self.0.to_be_bytes();
        [high, middle, low]
    }
}

// Two bytes, high byte first.
impl From<[u8; 2]> for Track {
    ghost from_gives = { λ bytes t. t ≡ track (byte bytes 0 * 256 + byte bytes 1) };

    fn from(bytes: [u8; 2]) -> Track {
        Track(u32::from(u16::from_be_bytes(bytes)))
    }
}

impl Track {
    // Track 0: the drive's first, and what an ID names where there is no partner.
    pub fn first() -> Track
        ensures { result ≡ track 0 }
    {
        Track(0)
    }

    pub fn numbered(k: u32) -> Track
        ensures { result ≡ track k }
    {
        Track(k)
    }

    // The two low bytes, high byte first.
    pub fn to_be_bytes(self) -> [u8; 2]
        ensures { result ≡ self.0 / 256 % 256 ∷ self.0 % 256 ∷ [] }
    {
        let [_, _, high, low] = self.0.to_be_bytes();
        [high, low]
    }
}

// C, H, n and D of document 01.
#[derive(Clone, Copy)]
pub struct Params {
    pub cylinders: u32,
    pub heads: u32,
    pub sectors: usize,
    pub size: usize,
}

// A track's place in the image: from start up to end.
#[derive(Clone, Copy)]
pub struct Stretch {
    pub start: usize,
    pub end: usize,
}

impl Params {
    pub fn tracks(self) -> u32
        requires { Within self }
        ensures { result ≡ track_count self }
    {
        self.cylinders * self.heads
    }

    pub fn has_track(self, t: Track) -> bool
        requires { Within self }
        ensures { result ≡ ltb t.0 (track_count self) }
    {
        t.0 < self.tracks()
    }

    pub fn last_address(self) -> Lba
        requires { Within self }
        ensures { result ≡ last_address self }
    {
        Lba(self.tracks() * (self.sectors as u32) - 1)
    }

    pub fn slot_size(self) -> usize
        requires { Within self }
        ensures { result ≡ slot_size self }
    {
        8 + self.size
    }

    pub fn track_size(self) -> usize
        requires { Within self }
        ensures { result ≡ track_size self }
    {
        self.sectors * self.slot_size()
    }

    pub fn image_length(self) -> usize
        requires { Within self }
        ensures { result ≡ image_length self }
    {
        16 + (self.tracks() as usize) * self.track_size()
    }

    pub fn track_of(self, a: Lba) -> Track
        requires { Within self }
        ensures { result ≡ track_of self a }
    {
        Track(a.0 / (self.sectors as u32))
    }

    pub fn sector_of(self, a: Lba) -> u8
        requires { Within self }
        ensures { result ≡ sector_of self a }
    {
        (a.0 % (self.sectors as u32)) as u8
    }

    pub fn cylinder_of(self, t: Track) -> u16
        requires { Within self × (t.0 < track_count self) }
        ensures { result ≡ cylinder_of self t }
    {
        (t.0 / self.heads) as u16
    }

    pub fn head_of(self, t: Track) -> u8
        requires { Within self }
        ensures { result ≡ head_of self t }
    {
        (t.0 % self.heads) as u8
    }

    pub fn stretch(self, t: Track) -> Stretch
        requires { Within self × (t.0 < track_count self) }
        ensures { (result.start ≡ track_start self t) × (result.end ≡ track_start self t + track_size self) × (result.end ≤ image_length self) }
    {
        let size = self.track_size();
        let start = 16 + (t.0 as usize) * size;
        Stretch {
            start,
            end: start + size,
        }
    }
}
