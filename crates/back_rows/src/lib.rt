// The rows of the walk over a backward ring (M-109): why it ends, or the next record.
#![tactic(auto)]

ghost use Rattle.std.specs.Prelude.{◌≡◌, ◌+◌, ◌%◌, ◌≤◌, length};
ghost use Rattle.meaning.specs.Reasons.{frame_of};
ghost use Rattle.meaning.specs.Ring.{asking_with};
ghost use Rattle.meaning.specs.Backward.{placed, back_frame};

use meaning::{Found, Reason};

// Rows 0, 6, 13, 8, 9 and 3: what is tested at a place whose header lies whole, after `way` bytes. No sum is made that could
// wrap.
pub fn placed_at(
    ring: &[u8],
    way: u64,
    place: usize,
    left: u64,
    journal: usize,
    scratch: usize,
) -> Result<Option<Found>, Reason>
    requires { place + 8 ≤ length ring.now }
    ensures { frame_of result ≡ placed ring.now way place left journal scratch }
{
    let size = wire::u16_at(ring, place + 6) as usize;
    let len = ring.len() as u64;
    if len <= way {
        return Ok(None);
    }
    if size == 0 {
        return Ok(None);
    }
    if size < 8 {
        return Err(Reason::RecordSize);
    }
    if size % 8 != 0 {
        return Err(Reason::RecordSize);
    }
    if len - way < size as u64 {
        return Err(Reason::Overwritten);
    }
    if left == 0 {
        return Err(Reason::BudgetSpent);
    }
    if journal < 16 {
        return Err(Reason::JournalFull);
    }
    if !ring::lies_whole(ring, place, size) && scratch < size {
        return Err(Reason::ShortScratch);
    }
    Ok(Some(Found { place, size }))
}

// The rows in document 02's order: 1, 2, 5 and 11, then those of the place. `count` is head plus the way walked, so it is a
// multiple of 8 where head is one.
pub fn next_back(
    ok: bool,
    table: bool,
    ring: &[u8],
    head: u64,
    count: u64,
    left: u64,
    journal: usize,
    scratch: usize,
) -> Result<Option<Found>, Reason>
    requires { head % 8 ≡ 0 → count % 8 ≡ 0 }
    ensures { frame_of result ≡ back_frame (asking_with ok table) ring.now head count left journal scratch }
{
    let len = ring.len();
    if !ring::length_allowed(len) {
        return Err(Reason::RingLength);
    }
    if !ok {
        return Err(Reason::UnknownEdition);
    }
    if head % 8 != 0 {
        return Err(Reason::Unaligned);
    }
    if !table {
        return Err(Reason::BadTable);
    }
    let way = ring::distance(count, head);
    let place = (count as usize) % len;
    placed_at(ring, way, place, left, journal, scratch)
}
