// The store of settings: the public types. What document 02 says of it stands in specs/, with the theorems.
#![tactic(auto)]

ghost use Rattle.std.specs.Prelude.{◌≤◌};

// A version of the store that this build reads: its number, how many bytes an event's index has, how many events a table
// holds at most.
#[derive(Clone, Copy, Debug, PartialEq, Eq)]
pub struct Version {
    pub number: u64,
    pub width: usize,
    pub limit: usize,
    pub ghost low: { 1 ≤ width },
    pub ghost high: { width ≤ 2 },
    pub ghost most: { limit ≤ 1024 },
}

// The versions that this build reads.
pub const ONE: Version = Version {
    number: 1,
    width: 1,
    limit: 32,
};

pub const TWO: Version = Version {
    number: 2,
    width: 2,
    limit: 1024,
};

impl Version {
    ghost use Rattle.std.specs.Prelude.{◌≡◌, ◌^◌, ◌<◌};
    ghost use Rattle.settings.specs.Versions.{row_of, place_of};

    // Where the event entry of index n stands: after the first entry of 8 bytes and n event entries.
    pub fn place_of(self, n: usize) -> usize
        requires { place_of (row_of self) n < 2 ^ 64 }
        ensures { result ≡ place_of (row_of self) n }
    {
        8 + n * (self.width + 54)
    }
}

// What reading a store tells: 0, and the number of events, ring length, edition and budget; or a refusal, and zeros.
#[repr(C)]
#[derive(Clone, Copy, Debug, PartialEq, Eq)]
pub struct Settings {
    pub events: u64,
    pub ring: u64,
    pub edition: u32,
    pub budget: u32,
    pub answer: u32,
}

// What writing a store tells: 0, and the number of bytes; or a refusal, and zero.
#[repr(C)]
#[derive(Clone, Copy, Debug, PartialEq, Eq)]
pub struct Stored {
    pub bytes: u64,
    pub answer: u32,
}
