// The layouts of document 01 as one table of numbers: a row is a guard (when the item is selected) and a shape. That
// the rows are the layouts, for all attributes, is proved by computation (specs/Same.antt): a row that is wrong is
// refused.

// ---- guards: below 32 a bit of the sample type; from 32 on one of these; from 64 on a bit of the sample type, in the trailer
pub const IF_ALWAYS: u16 = 0;

pub const IF_READ_LOST: u16 = 1;

pub const IF_BUILD_ID: u16 = 2;

pub const IF_NO_BUILD_ID: u16 = 3;

pub const IF_WEIGHT: u16 = 4;

pub const IF_SAMPLE_ALONE: u16 = 5;

pub const IF_SAMPLE_GROUP: u16 = 6;

pub const IF_SAMPLE_ENABLED: u16 = 7;

pub const IF_SAMPLE_RUNNING: u16 = 8;

pub const IF_SAMPLE_ID: u16 = 9;

pub const IF_READ_ALONE: u16 = 10;

pub const IF_READ_GROUP: u16 = 11;

pub const IF_READ_ENABLED: u16 = 12;

pub const IF_READ_RUNNING: u16 = 13;

pub const IF_READ_ID: u16 = 14;

pub const IF_INDEX: u16 = 15;

pub const IF_SAMPLE_LOST: u16 = 16;

// A row is a guard times 32, and a shape.
// kept: a number, and no struct of two enums: `LaidOut` and `trailer-rows` compute with the list of these numbers, and
// the contracts of those who walk the table name a row by its number; a walk copies all rows, of two bytes each.
const SAMPLE_BIT: u16 = 32;

const ALWAYS: u16 = 32 * (32 + IF_ALWAYS);

const READ_LOST: u16 = 32 * (32 + IF_READ_LOST);

const BUILD_ID: u16 = 32 * (32 + IF_BUILD_ID);

const NO_BUILD_ID: u16 = 32 * (32 + IF_NO_BUILD_ID);

const WEIGHT: u16 = 32 * (32 + IF_WEIGHT);

const SAMPLE_ALONE: u16 = 32 * (32 + IF_SAMPLE_ALONE);

const SAMPLE_GROUP: u16 = 32 * (32 + IF_SAMPLE_GROUP);

const SAMPLE_ENABLED: u16 = 32 * (32 + IF_SAMPLE_ENABLED);

const SAMPLE_RUNNING: u16 = 32 * (32 + IF_SAMPLE_RUNNING);

const SAMPLE_ID: u16 = 32 * (32 + IF_SAMPLE_ID);

const READ_ALONE: u16 = 32 * (32 + IF_READ_ALONE);

const READ_GROUP: u16 = 32 * (32 + IF_READ_GROUP);

const READ_ENABLED: u16 = 32 * (32 + IF_READ_ENABLED);

const READ_RUNNING: u16 = 32 * (32 + IF_READ_RUNNING);

const READ_ID: u16 = 32 * (32 + IF_READ_ID);

const INDEX: u16 = 32 * (32 + IF_INDEX);

const SAMPLE_LOST: u16 = 32 * (32 + IF_SAMPLE_LOST);

const TRAILER: u16 = 32 * 64;

// ---- shapes, from 0 on
pub const U64: u16 = 0;

pub const U32: u16 = 1;

pub const U16: u16 = 2;

pub const COUNT_64: u16 = 3;

pub const COUNT_16: u16 = 4;

pub const SIZE_32: u16 = 5;

pub const SIZE_64: u16 = 6;

pub const BYTES: u16 = 7;

pub const WORDS: u16 = 8;

pub const PAIRS: u16 = 9;

pub const BRANCHES: u16 = 10;

pub const VALUES: u16 = 11;

pub const EARLIER_BYTES: u16 = 12;

pub const REGISTERS: u16 = 13;

pub const FILLED: u16 = 14;

pub const USER_ABI: u16 = 15;

pub const INTERRUPT_ABI: u16 = 16;

pub const BUILD_SIZE: u16 = 17;

pub const BUILD_BYTES: u16 = 18;

pub const TAG: u16 = 19;

pub const PADDING: u16 = 20;

pub const NAME: u16 = 21;

pub const IGNORED_3: u16 = 22;

pub const IGNORED_4: u16 = 23;

// The types, with 0, which has no rows; the rows of all types' fields; all rows, with those of the trailer.
pub const TYPES: u64 = 22;

pub const FIELD_ROWS: usize = 122;

pub const ALL_ROWS: usize = 130;

// The rows of one type after those of the other, by type; then those of the trailer.
pub const ROWS: [u16; ALL_ROWS] = [
    // 1 MMAP
    ALWAYS + U32, // pid
    ALWAYS + U32, // tid
    ALWAYS + U64, // addr
    ALWAYS + U64, // len
    ALWAYS + U64, // pgoff
    ALWAYS + NAME, // name
    // 2 LOST
    ALWAYS + U64, // id
    ALWAYS + U64, // lost
    // 3 COMM
    ALWAYS + U32, // pid
    ALWAYS + U32, // tid
    ALWAYS + NAME, // name
    // 4 EXIT
    ALWAYS + U32, // pid
    ALWAYS + U32, // ppid
    ALWAYS + U32, // tid
    ALWAYS + U32, // ptid
    ALWAYS + U64, // time
    // 5 THROTTLE
    ALWAYS + U64, // time
    ALWAYS + U64, // id
    ALWAYS + U64, // stream id
    // 6 UNTHROTTLE
    ALWAYS + U64, // time
    ALWAYS + U64, // id
    ALWAYS + U64, // stream id
    // 7 FORK
    ALWAYS + U32, // pid
    ALWAYS + U32, // ppid
    ALWAYS + U32, // tid
    ALWAYS + U32, // ptid
    ALWAYS + U64, // time
    // 8 READ
    ALWAYS + U32, // pid
    ALWAYS + U32, // tid
    READ_ALONE + U64, // value
    READ_GROUP + COUNT_64, // n
    READ_ENABLED + U64, // time enabled
    READ_RUNNING + U64, // time running
    READ_ID + U64, // id
    READ_LOST + U64, // lost count
    READ_GROUP + VALUES, // n times value, id and lost count where selected
    // 9 SAMPLE
    SAMPLE_BIT * 16 + U64, // identifier
    SAMPLE_BIT * 0 + U64, // ip
    SAMPLE_BIT * 1 + U32, // pid
    SAMPLE_BIT * 1 + U32, // tid
    SAMPLE_BIT * 2 + U64, // time
    SAMPLE_BIT * 3 + U64, // addr
    SAMPLE_BIT * 6 + U64, // id
    SAMPLE_BIT * 9 + U64, // stream id
    SAMPLE_BIT * 7 + U32, // cpu
    SAMPLE_BIT * 7 + IGNORED_4, // res
    SAMPLE_BIT * 8 + U64, // period
    SAMPLE_ALONE + U64, // value
    SAMPLE_GROUP + COUNT_64, // n
    SAMPLE_ENABLED + U64, // time enabled
    SAMPLE_RUNNING + U64, // time running
    SAMPLE_ID + U64, // id
    SAMPLE_LOST + U64, // lost count
    SAMPLE_GROUP + VALUES, // n times value, id and lost count where selected
    SAMPLE_BIT * 5 + COUNT_64, // callchain: n
    SAMPLE_BIT * 5 + WORDS, // n words
    SAMPLE_BIT * 10 + SIZE_32, // raw: size
    SAMPLE_BIT * 10 + BYTES, // bytes
    SAMPLE_BIT * 11 + COUNT_64, // branches: n
    INDEX + U64, // hardware index
    SAMPLE_BIT * 11 + BRANCHES, // n entries
    SAMPLE_BIT * 12 + USER_ABI, // user registers: abi
    SAMPLE_BIT * 12 + REGISTERS, // registers
    SAMPLE_BIT * 13 + SIZE_64, // user stack: size
    SAMPLE_BIT * 13 + BYTES, // bytes
    SAMPLE_BIT * 13 + FILLED, // filled length
    WEIGHT + U64, // weight
    SAMPLE_BIT * 15 + U64, // data source
    SAMPLE_BIT * 17 + U64, // transaction
    SAMPLE_BIT * 18 + INTERRUPT_ABI, // interrupt registers: abi
    SAMPLE_BIT * 18 + REGISTERS, // registers
    SAMPLE_BIT * 19 + U64, // physical address
    SAMPLE_BIT * 21 + U64, // cgroup
    SAMPLE_BIT * 22 + U64, // data page size
    SAMPLE_BIT * 23 + U64, // code page size
    SAMPLE_BIT * 20 + SIZE_64, // aux: size
    SAMPLE_BIT * 20 + BYTES, // bytes
    // 10 MMAP2
    ALWAYS + U32, // pid
    ALWAYS + U32, // tid
    ALWAYS + U64, // addr
    ALWAYS + U64, // len
    ALWAYS + U64, // pgoff
    NO_BUILD_ID + U32, // maj
    NO_BUILD_ID + U32, // min
    NO_BUILD_ID + U64, // ino
    NO_BUILD_ID + U64, // generation
    BUILD_ID + BUILD_SIZE, // build id size
    BUILD_ID + IGNORED_3, // reserved
    BUILD_ID + BUILD_BYTES, // build id
    ALWAYS + U32, // prot
    ALWAYS + U32, // flags
    ALWAYS + NAME, // name
    // 11 AUX
    ALWAYS + U64, // offset
    ALWAYS + U64, // size
    ALWAYS + U64, // flags
    // 12 ITRACE_START
    ALWAYS + U32, // pid
    ALWAYS + U32, // tid
    // 13 LOST_SAMPLES
    ALWAYS + U64, // lost
    // 15 SWITCH_CPU_WIDE
    ALWAYS + U32, // pid
    ALWAYS + U32, // tid
    // 16 NAMESPACES
    ALWAYS + U32, // pid
    ALWAYS + U32, // tid
    ALWAYS + COUNT_64, // n
    ALWAYS + PAIRS, // n times dev, inode
    // 17 KSYMBOL
    ALWAYS + U64, // addr
    ALWAYS + U32, // len
    ALWAYS + U16, // type
    ALWAYS + U16, // flags
    ALWAYS + NAME, // name
    // 18 BPF_EVENT
    ALWAYS + U16, // type
    ALWAYS + U16, // flags
    ALWAYS + U32, // id
    ALWAYS + TAG, // tag
    // 19 CGROUP
    ALWAYS + U64, // id
    ALWAYS + NAME, // name
    // 20 TEXT_POKE
    ALWAYS + U64, // addr
    ALWAYS + COUNT_16, // old length
    ALWAYS + COUNT_16, // new length
    ALWAYS + EARLIER_BYTES, // old text
    ALWAYS + BYTES, // new text
    ALWAYS + PADDING, // padding
    // 21 AUX_OUTPUT_HW_ID
    ALWAYS + U64, // hardware id
    // the trailer
    TRAILER + SAMPLE_BIT * 1 + U32, // pid
    TRAILER + SAMPLE_BIT * 1 + U32, // tid
    TRAILER + SAMPLE_BIT * 2 + U64, // time
    TRAILER + SAMPLE_BIT * 6 + U64, // id
    TRAILER + SAMPLE_BIT * 9 + U64, // stream id
    TRAILER + SAMPLE_BIT * 7 + U32, // cpu
    TRAILER + SAMPLE_BIT * 7 + IGNORED_4, // res
    TRAILER + SAMPLE_BIT * 16 + U64, // identifier
];

// Where a type's rows start, from type 0 on; they end where the next one's start.
pub const STARTS: [usize; 23] = [
    0, 0, 6, 8, 11, 16, 19, 22, 27, 36, 77, 92, 95, 97, 98, 98, 100, 104, 109, 113, 115, 121, 122,
];
