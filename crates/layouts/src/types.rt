// The types of records that are judged apart, by name: a function that answers for any number compares it with these.
use meaning::Kind;

pub const READ: u64 = Kind::Read as u64;

pub const SAMPLE: u64 = Kind::Sample as u64;

pub const MMAP2: u64 = Kind::Mmap2 as u64;

pub const NAMESPACES: u64 = Kind::Namespaces as u64;
