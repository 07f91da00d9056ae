// The salvage of a damaged stream (M-111): what it tells, and in specs/ what it keeps and lists, with theorems for any judge. Its code is in
// salvage_kept, salvage_steps and salvaging.
#![tactic(auto)]

// Where a salvage stands: the place, the start of the hole that ends there (the place itself where none does), the bytes kept and
// the holes closed so far.
#[derive(Clone, Copy, Debug, PartialEq, Eq)]
pub struct Walk {
    pub at: usize,
    pub start: usize,
    pub kept: usize,
    pub holes: usize,
}

// What a salvage tells: bytes kept and written, bytes dropped, bytes of the list of changes, the answer.
#[repr(C)]
#[derive(Clone, Copy, Debug, PartialEq, Eq)]
pub struct Salvaged {
    pub kept: u64,
    pub dropped: u64,
    pub changes: u64,
    pub answer: u32,
}

// A crate has a function; this one does nothing.
pub fn nothing() {}
