// The layouts of the record types as a table of rows: which rows a type has. Crate items has the item that a row stands
// for.
#![tactic(auto)]

ghost use Rattle.std.specs.Prelude.{◌≡◌, ◌<◌, get_or, unwrap_or, IfSome};
ghost use Rattle.table.specs.Rows.{rows, all_rows};
ghost use Rattle.table.specs.Flags.{flag_at};
ghost use Rattle.table.specs.Same.{LaidOut};

use meaning::Kind;

pub mod rows;

// The rows from `from` up to, and not with, `to`.
// kept: a struct, and no `Range`: `LaidOut` speaks of it.
#[derive(Clone, Copy, Debug, PartialEq, Eq)]
pub struct Part {
    pub from: usize,
    pub to: usize,
}

// The rows of a type's fields; of a type that document 01 does not have, none.
pub fn part_of(kind: u64) -> Part
    ensures { LaidOut kind result }
{
    if kind < rows::TYPES {
        let k = kind as usize;
        Part {
            from: rows::STARTS[k],
            to: rows::STARTS[k + 1],
        }
    } else {
        Part { from: 0, to: 0 }
    }
}

// "MMAP, MMAP2, COMM, KSYMBOL and CGROUP records gain a flag": its word, the next after the words of the type's fields
// (M-107). The padding of TEXT_POKE is no name.
pub fn flag_at(kind: u64) -> Option<usize>
    ensures value { unwrap_or result 0 ≡ flag_at kind }
    ensures some { IfSome result (λ word. 0 < word) }
{
    match Kind::try_from(kind) {
        Ok(Kind::Mmap) => Some(10),
        Ok(Kind::Comm) => Some(7),
        Ok(Kind::Mmap2) => Some(18),
        Ok(Kind::Ksymbol) => Some(9),
        Ok(Kind::Cgroup) => Some(6),
        _ => None,
    }
}

// How many rows there are.
pub const ROWS: usize = rows::ALL_ROWS;

// The rows of the trailer are the same for every type: `trailer-rows` of specs/Same.antt says what they stand for.
pub const TRAILER_FROM: usize = rows::FIELD_ROWS;

pub const TRAILER_TO: usize = rows::ALL_ROWS;

// All rows. A constant array that is indexed by a variable is copied at each use, so a walk takes it once and lends it.
pub fn all_rows() -> [u16; ROWS]
    ensures { result ≡ rows }
{
    rows::ROWS
}

// Row k of those lent.
pub fn row_at(all: &[u16; ROWS], k: usize) -> u16
    requires k_lt_all_rows { k < all_rows }
    requires all_value { all.now ≡ rows }
    ensures { result ≡ get_or rows k 0 }
{
    all[k]
}
