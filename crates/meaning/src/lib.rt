// The public types of the reader: what an edition knows, the attributes, the items of a record's layout, the reader's
// place in it, and what the callers are told. What document 01 says of them stands in specs/.
#![tactic(auto)]

ghost use Rattle.std.specs.Prelude.{◌≡◌, ◌≤◌, ◌-◌, ◌^◌};
ghost use Rattle.meaning.specs.Items.{bytes};
ghost use Rattle.meaning.specs.Events.{attributes_of, event_of};
ghost use Rattle.meaning.specs.Misc.{number13, number14};
ghost use Rattle.meaning.specs.Reasons.{answer_of, number_of};
ghost use Rattle.meaning.specs.Kinds.{kind_number, Numbered};

// What an edition knows: record types 1 to `kinds`, sample bits below `samples`, read-format bits below `formats`, the
// build-id form of MMAP2 or not, branch sample bit 17 (the hardware index) or not.
#[derive(Clone, Copy, Debug, PartialEq, Eq)]
pub struct Known {
    pub kinds: u64,
    pub samples: u64,
    pub formats: u64,
    pub builds: bool,
    pub index: bool,
}

// One attribute set serves a whole ring: sample type, read format, sample_id_all, user and interrupt register masks,
// branch sample type.
#[derive(Clone, Copy, Debug, PartialEq, Eq)]
pub struct Attributes {
    pub sample: u64,
    pub format: u64,
    pub all: bool,
    pub user: u64,
    pub interrupt: u64,
    pub branch: u64,
}

// An event: its identifier and its attributes, seven words of eight bytes, as C lends them; a row of seven words is the
// same memory. `all` is sample_id_all: nonzero is set. `branch` is the branch sample type.
#[repr(C)]
#[derive(Clone, Copy, Debug, PartialEq, Eq)]
pub struct Event {
    pub identifier: u64,
    pub sample: u64,
    pub format: u64,
    pub user: u64,
    pub interrupt: u64,
    pub branch: u64,
    pub all: u64,
}

impl From<[u64; 7]> for Event {
    ghost from_gives = { λ row event. event ≡ event_of row };

    #[tactic(auto, unfolding(crate::specs::Events::event_of))]
    fn from(row: [u64; 7]) -> Event {
        Event {
            identifier: row[0],
            sample: row[1],
            format: row[2],
            user: row[3],
            interrupt: row[4],
            branch: row[5],
            all: row[6],
        }
    }
}

// kept: five fields by hand: a struct update copies from a value of the same type alone.
impl From<Event> for Attributes {
    ghost from_gives = { λ event attributes. attributes ≡ attributes_of event };

    #[tactic(auto, unfolding(crate::specs::Events::attributes_of))]
    fn from(event: Event) -> Attributes {
        Attributes {
            sample: event.sample,
            format: event.format,
            all: event.all != 0,
            user: event.user,
            interrupt: event.interrupt,
            branch: event.branch,
        }
    }
}

#[derive(Clone, Copy, Debug, PartialEq, Eq)]
pub enum Width {
    W1,
    W2,
    W4,
    W8,
}

impl Width {
    // How many bytes.
    pub fn bytes(self) -> usize
        ensures { (result ≡ bytes self) × (1 ≤ result) × (result ≤ 8) }
    {
        match self {
            Width::W1 => 1,
            Width::W2 => 2,
            Width::W4 => 4,
            Width::W8 => 8,
        }
    }

    // The largest number of so many bytes.
    pub fn largest(self) -> u64
        ensures { result ≡ 256 ^ bytes self - 1 }
    {
        match self {
            Width::W1 => u8::MAX as u64,
            Width::W2 => u16::MAX as u64,
            Width::W4 => u32::MAX as u64,
            Width::W8 => u64::MAX,
        }
    }
}

// The shapes of a record's items. A width is that of a number; a `usize` counts bytes.
#[derive(Clone, Copy, Debug, PartialEq, Eq)]
pub enum Shape {
    // a number
    Number(Width),
    // bytes that say nothing
    Ignored(usize),
    // a number that later items are counted by
    Count(Width),
    // the same, of bytes, where the number and its own width make a multiple of 8 (raw, stack, aux)
    Size(Width),
    // as many elements as the last count says, of so many bytes each
    Times(usize),
    // as many as the count before the last one says (the old text of TEXT_POKE)
    Earlier(usize),
    // registers of 8 bytes each, as many as the abi word left
    Registers,
    // the filled length of a stack; none where the stack's size is 0
    Filled,
    // an abi word; as many registers follow as the mask has ones, or none where the abi is 0
    Abi(u64),
    // one byte that counts, at most so much (the build id's size)
    Limit(u64),
    // so many bytes, of which the first are listed, as many as the count says (the build id)
    Listed(usize),
    // so many bytes, all listed (the tag of BPF_EVENT)
    Bytes(usize),
    // the bytes up to the next multiple of 8
    Pad,
    // a name, its zero, and the bytes after that, to the end of the fields
    Name,
}

// An item is selected or not, by misc and the attributes.
#[derive(Clone, Copy, Debug, PartialEq, Eq)]
pub struct Item {
    pub on: bool,
    pub shape: Shape,
}

// Where a walk over items stands that nothing has refused: the place, the count remembered last, the one before it.
#[derive(Clone, Copy, Debug, PartialEq, Eq)]
pub struct Spot {
    pub at: usize,
    pub n: u64,
    pub old: u64,
}

// What a drain tells: records and bytes taken, the new tail, why it stopped.
#[repr(C)]
#[derive(Clone, Copy, Debug, PartialEq, Eq)]
pub struct Drained {
    pub taken: u64,
    pub bytes: u64,
    pub tail: u64,
    pub stop: u32,
}

// What a walk over a backward ring tells: records taken, bytes walked, why it ended. No tail moves.
#[repr(C)]
#[derive(Clone, Copy, Debug, PartialEq, Eq)]
pub struct Walked {
    pub taken: u64,
    pub bytes: u64,
    pub stop: u32,
}

// What is told of a record under a table of events (M-112): its answer, and how many events were inspected to find its own.
#[repr(C)]
#[derive(Clone, Copy, Debug, PartialEq, Eq)]
pub struct Judged {
    pub answer: u32,
    pub inspected: u32,
}

// Bit 13 of misc, by the record's type, with the number that C is told: one bit for each meaning, above the CPU mode's
// three.
#[derive(Clone, Copy, Debug, PartialEq, Eq)]
pub enum Bit13 {
    Nothing = 0,
    DataMapping = 8,
    Exec = 16,
    SwitchedOut = 32,
}

impl Bit13 {
    pub fn number(self) -> u32
        ensures { (result ≡ number13 self) × (result ≤ 32) }
    {
        self as u32
    }
}

// Bit 14 of misc, by the record's type, with its number.
#[derive(Clone, Copy, Debug, PartialEq, Eq)]
pub enum Bit14 {
    Nothing = 0,
    ExactAddress = 64,
    Preempted = 128,
    BuildId = 256,
}

impl Bit14 {
    pub fn number(self) -> u32
        ensures { (result ≡ number14 self) × (result ≤ 256) }
    {
        self as u32
    }
}

// Why a record, a ring or a call is refused, or why a reader stops: the rows of document 01 and of the requests after it, which number them.
#[derive(Clone, Copy, Debug, PartialEq, Eq)]
pub enum Reason {
    // the call
    RingLength = 1,
    UnknownEdition = 2,
    ShortScratch = 3,
    FarApart = 4,
    Unaligned = 5,
    // a record's header, and what is left of ring, budget and journal
    RecordSize = 6,
    NotWhole = 7,
    BudgetSpent = 8,
    JournalFull = 9,
    BadTable = 11,
    NameRoom = 12,
    Overwritten = 13,
    // what the edition or the table says of a record
    UnknownType = 20,
    SampleBits = 21,
    FormatBits = 22,
    BuildIdForm = 23,
    TwoWeights = 24,
    BranchBits = 25,
    UnknownIdentifier = 26,
    NoIdentifier = 27,
    // a record's bytes
    TooShort = 30,
    LeftOver = 31,
    InnerRule = 32,
    NameZero = 33,
    // values and lent buffers
    NoRoom = 40,
    OutsideSource = 41,
    NoSuchRecord = 42,
    FlagSet = 43,
    // record check alone: the record is sound, but bytes after its name's zero are not zero
    DirtyName = 44,
    // stores, traces, streams
    UnknownVersion = 50,
    BrokenEntry = 51,
    Misplaced = 52,
    BadOffer = 53,
    SalvageRoom = 54,
}

impl Reason {
    // The number that C is told.
    // kept: no `From<Reason> for u16`: `reason.number()` says which number it is, and `u16::from(reason)` does not.
    pub fn number(self) -> u16
        ensures { result ≡ number_of self }
    {
        self as u16
    }
}

// The number of an answer: 0 where nothing is refused.
// kept: a function, and no `From`: `Result` and `u16` are both std's, and an impl stands with one of its types.
pub fn answer_number(answer: Result<(), Reason>) -> u16
    ensures { result ≡ answer_of answer }
{
    match answer {
        Ok(()) => 0,
        Err(reason) => reason.number(),
    }
}

// Where a record lies in a ring.
#[derive(Clone, Copy, Debug, PartialEq, Eq)]
pub struct Found {
    pub place: usize,
    pub size: usize,
}

// The types of records that document 01 has, by name; it numbers them.
#[derive(Clone, Copy, Debug, PartialEq, Eq)]
pub enum Kind {
    Mmap = 1,
    Lost = 2,
    Comm = 3,
    Exit = 4,
    Throttle = 5,
    Unthrottle = 6,
    Fork = 7,
    Read = 8,
    Sample = 9,
    Mmap2 = 10,
    Aux = 11,
    ItraceStart = 12,
    LostSamples = 13,
    Switch = 14,
    SwitchCpuWide = 15,
    Namespaces = 16,
    Ksymbol = 17,
    BpfEvent = 18,
    Cgroup = 19,
    TextPoke = 20,
    AuxOutputHwId = 21,
}

// A number that no type has.
#[derive(Clone, Copy, Debug, PartialEq, Eq)]
pub struct UnknownKind(pub u64);

impl Kind {
    // kept: no `From<Kind> for u64`, as at `Reason`.
    pub fn number(self) -> u64
        ensures { result ≡ kind_number self }
    {
        self as u64
    }
}

impl TryFrom<u64> for Kind {
    type Error = UnknownKind;

    ghost try_from_gives = { Numbered };

    fn try_from(number: u64) -> Result<Self, UnknownKind> {
        match number {
            1 => Ok(Kind::Mmap),
            2 => Ok(Kind::Lost),
            3 => Ok(Kind::Comm),
            4 => Ok(Kind::Exit),
            5 => Ok(Kind::Throttle),
            6 => Ok(Kind::Unthrottle),
            7 => Ok(Kind::Fork),
            8 => Ok(Kind::Read),
            9 => Ok(Kind::Sample),
            10 => Ok(Kind::Mmap2),
            11 => Ok(Kind::Aux),
            12 => Ok(Kind::ItraceStart),
            13 => Ok(Kind::LostSamples),
            14 => Ok(Kind::Switch),
            15 => Ok(Kind::SwitchCpuWide),
            16 => Ok(Kind::Namespaces),
            17 => Ok(Kind::Ksymbol),
            18 => Ok(Kind::BpfEvent),
            19 => Ok(Kind::Cgroup),
            20 => Ok(Kind::TextPoke),
            21 => Ok(Kind::AuxOutputHwId),
            _ => Err(UnknownKind(number)),
        }
    }
}

// A crate has a function; this one does nothing.
pub fn nothing() {}
