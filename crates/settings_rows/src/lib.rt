// The events of a store of settings: row 11 of them, and the events put into a lent table.
#![tactic(auto)]

ghost use Rattle.std.specs.Prelude.{◌≡◌, ◌++◌, ◌+◌, ◌<◌, ◌≤◌, length, drop};
ghost use Rattle.meaning.specs.Events.{identifiers, events_of, all_marked, sound};
ghost use Rattle.settings.specs.Lent.{words_of, lent_rows};
ghost use Rattle.settings.specs.Versions.{row_of, place_of};
ghost use Rattle.settings.specs.Reading.{row_from, rows_of};

use meaning::Event;
use settings::Version;

// The first events of a store, so many: they lie in its bytes, where its version says.
#[derive(Clone, Copy)]
pub struct Events<'a> {
    pub bytes: &'a [u8],
    pub version: Version,
    pub count: usize,
    pub ghost inside: { place_of (row_of version) count ≤ length bytes.now },
}

// The event whose six words stand from a place on; sample_id_all is set.
fn event_at(bytes: &[u8], at: usize) -> Event
    requires { at + 48 ≤ length bytes.now }
    ensures { words_of result ≡ row_from bytes.now at }
{
    Event {
        identifier: wire::u64_at(bytes, at),
        sample: wire::u64_at(bytes, at + 8),
        format: wire::u64_at(bytes, at + 16),
        user: wire::u64_at(bytes, at + 24),
        interrupt: wire::u64_at(bytes, at + 32),
        branch: wire::u64_at(bytes, at + 40),
        all: 1,
    }
}

impl Events<'_> {
    // Where the six words of the event of index i begin: behind its entry's head and its index.
    fn words_at(self, i: usize) -> usize
        requires { i < self.count }
        ensures value { result ≡ place_of (row_of self.entry.version) i + (6 + self.entry.version.width) }
        ensures inside { result + 48 ≤ length self.entry.bytes.now }
    {
        self.version.place_of(i) + 6 + self.version.width
    }

    // All of them into a table.
    pub fn fill_rows(self, events: &mut [Event])
        requires { self.count ≤ length events.old }
        ensures { lent_rows events.new ≡ rows_of (row_of self.entry.version) self.entry.bytes.now self.entry.count ++ drop self.entry.count (lent_rows events.old) }
    {
        for i in 0..self.count {
            events[i] = event_at(self.bytes, self.words_at(i));
        }
    }

    // Their identifiers, and whether each has sample bit 16. No second table is needed for that, and the lent one stays as
    // it is.
    fn list(self, ids: &mut [u64]) -> bool
        requires { self.count ≤ length ids.old }
        ensures value { result ≡ all_marked (events_of (rows_of (row_of self.entry.version) self.entry.bytes.now self.entry.count)) }
        ensures ids_after { ids.new ≡ identifiers (events_of (rows_of (row_of self.entry.version) self.entry.bytes.now self.entry.count)) ++ drop self.entry.count ids.old }
    {
        let mut ok = true;
        for i in 0..self.count {
            let p = self.words_at(i);
            ids[i] = wire::u64_at(self.bytes, p);
            ok = ok & wire::has_bit(wire::u64_at(self.bytes, p + 8), 16);
        }
        ok
    }

    // Row 11 for them.
    pub fn rows_sound(self) -> bool
        ensures { result ≡ sound self.entry.version.limit (events_of (rows_of (row_of self.entry.version) self.entry.bytes.now self.entry.count)) }
    {
        let n = self.count;
        if n < 1 {
            return false;
        }
        if self.version.limit < n {
            return false;
        }
        let mut ids = [0u64; 1024];
        if !self.list(&mut ids) {
            return false;
        }
        identifiers::distinct(&ids[..n])
    }
}
