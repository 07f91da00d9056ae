// The library for C: a store of settings, read and written. Each export has the whole contract of the function that it calls.
#![tactic(auto)]

ghost use Rattle.std.specs.Prelude.{◌≡◌, length};
ghost use Rattle.meaning.specs.Editions.{editions};
ghost use Rattle.settings.specs.Lent.{lent_rows};
ghost use Rattle.settings.specs.Versions.{versions};
ghost use Rattle.settings.specs.Reading.{read_store, rows_after};
ghost use Rattle.settings.specs.Writing.{writes, write_store, buffer_after};

use meaning::Event;
use settings::{Settings, Stored};

#[unsafe(no_mangle)]
pub extern "C" fn ollskuvan_read_store(store: &[u8], events: &mut [Event]) -> Settings
    ensures value { result ≡ read_store versions editions store.now (length events.old) }
    ensures events_after { lent_rows events.new ≡ rows_after versions editions store.now (lent_rows events.old) }
{
    ollskuvan_store::ollskuvan_read_store(store, events)
}

#[unsafe(no_mangle)]
pub extern "C" fn ollskuvan_write_store(
    events: &[Event],
    ring: u64,
    edition: u32,
    budget: u32,
    buffer: &mut [u8],
) -> Stored
    ensures value { result ≡ write_store writes editions (lent_rows events.now) ring edition budget (length buffer.old) }
    ensures buffer_after { buffer.new ≡ buffer_after writes editions (lent_rows events.now) ring edition budget buffer.old }
{
    ollskuvan_store::ollskuvan_write_store(events, ring, edition, budget, buffer)
}
