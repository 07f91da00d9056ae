// A store of settings, written into a lent buffer.
#![tactic(auto)]

ghost use Rattle.std.specs.Prelude.{◌≡◌, length};
ghost use Rattle.meaning.specs.Editions.{editions};
ghost use Rattle.settings.specs.Writing.{writes, told, write_store, buffer_after};
ghost use Rattle.settings.specs.Lent.{lent_rows};
ghost use Rattle.settings.specs.Versions.{row_of};

use entries::EntryKind;
use meaning::{Event, Reason};
use settings::{Stored, TWO, Version};

// The number of bytes of the store of a table, a ring length, an edition and a budget, in a version, put into a lent buffer; or 11, 1,
// 2, 40, and then the buffer unchanged.
fn write_in(
    v: Version,
    events: &[Event],
    ring: u64,
    edition: u64,
    budget: u32,
    buffer: &mut [u8],
) -> Result<usize, Reason>
    ensures value { told result ≡ write_store (row_of v) editions (lent_rows events.now) ring edition budget (length buffer.old) }
    ensures buffer_after { buffer.new ≡ buffer_after (row_of v) editions (lent_rows events.now) ring edition budget buffer.old }
{
    if !events::sound(events, v.limit) {
        return Err(Reason::BadTable);
    }
    if !ring::length_allowed(ring as usize) {
        return Err(Reason::RingLength);
    }
    if !record::allowed(edition) {
        return Err(Reason::UnknownEdition);
    }
    let at = v.place_of(events.len());
    if buffer.len() < at + 19 {
        return Err(Reason::NoRoom);
    }
    let shown = put::le16(v.number);
    entries::put_entry(buffer, 0, EntryKind::Version.number(), &shown);
    settings_put::put_rows(buffer, v, events);
    settings_put::put_last(buffer, at, ring, edition, budget);
    Ok(at + 19)
}

// The same in the version that this build writes.
pub fn write_store(
    events: &[Event],
    ring: u64,
    edition: u64,
    budget: u32,
    buffer: &mut [u8],
) -> Stored
    ensures value { result ≡ write_store writes editions (lent_rows events.now) ring edition budget (length buffer.old) }
    ensures buffer_after { buffer.new ≡ buffer_after writes editions (lent_rows events.now) ring edition budget buffer.old }
{
    match write_in(TWO, events, ring, edition, budget, buffer) {
        Ok(size) => Stored {
            bytes: size as u64,
            answer: 0,
        },
        Err(reason) => Stored {
            bytes: 0,
            answer: reason.number() as u32,
        },
    }
}
