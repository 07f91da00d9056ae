// Two rings compared (M-108): the public type. What document 02 says of it stands in specs/, with the theorems.
#![tactic(auto)]

// What a comparison tells. `records`: so many pairs of records are equal; where a field differs, that record's number too.
// `what`: 0 alike; 1 a field differs; 2 the left side ended first, 3 the right; 4 the left side stopped, 5 the right.
// `field` and `stop` are 0 where they say nothing.
#[repr(C)]
#[derive(Clone, Copy)]
pub struct Compared {
    pub records: u64,
    pub what: u32,
    pub field: u32,
    pub stop: u32,
}

// A crate has a function; this one does nothing.
pub fn nothing() {}
