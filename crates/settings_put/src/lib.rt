// The entries of a store of settings, put into a lent buffer: each event at its place, then the last.
#![tactic(auto)]

ghost use Rattle.std.specs.Prelude.{◌≡◌, ◌+◌, ◌≤◌, length};
ghost use Rattle.meaning.specs.Bytes.{spell, put};
ghost use Rattle.settings.specs.Lent.{words_of, lent_rows};
ghost use Rattle.settings.specs.Versions.{row_of, place_of};
ghost use Rattle.settings.specs.Writing.{word_bytes, row_bytes, rows_bytes, last_bytes};

use entries::EntryKind;
use meaning::Event;
use settings::Version;

fn put_index(d: &mut [u8], at: usize, width: usize, n: usize)
    requires { (1 ≤ width) × (width ≤ 2) }
    ensures { d.new ≡ put d.old at (spell width n) }
{
    if width == 1 {
        put::put8(d, at, n as u64);
        return;
    }
    put::put16(d, at, n as u64);
}

fn put_words(d: &mut [u8], at: usize, event: &Event)
    requires { at + 48 ≤ length d.old }
    ensures { d.new ≡ put d.old at (word_bytes (words_of event.now)) }
{
    put::put64(d, at, event.identifier);
    put::put64(d, at + 8, event.sample);
    put::put64(d, at + 16, event.format);
    put::put64(d, at + 24, event.user);
    put::put64(d, at + 32, event.interrupt);
    put::put64(d, at + 40, event.branch);
}

fn put_row(d: &mut [u8], at: usize, v: Version, n: usize, event: &Event)
    requires { at + (v.width + 54) ≤ length d.old }
    ensures { d.new ≡ put d.old at (row_bytes (row_of v) n (words_of event.now)) }
{
    let width = v.width;
    entries::put_head(d, at, EntryKind::Event.number(), width as u64 + 48);
    put_index(d, at + 6, width, n);
    put_words(d, at + 6 + width, event);
}

pub fn put_rows(d: &mut [u8], v: Version, events: &[Event])
    requires { place_of (row_of v) (length events.now) ≤ length d.old }
    ensures { d.new ≡ put d.old 8 (rows_bytes (row_of v) 0 (lent_rows events.now)) }
{
    for (i, event) in events.iter().enumerate() {
        put_row(d, v.place_of(i), v, i, event);
    }
}

pub fn put_last(d: &mut [u8], at: usize, ring: u64, edition: u64, budget: u32)
    requires { at + 19 ≤ length d.old }
    ensures { d.new ≡ put d.old at (last_bytes ring edition budget) }
{
    entries::put_head(d, at, EntryKind::Last.number(), 13);
    put::put64(d, at + 6, ring);
    put::put8(d, at + 14, edition);
    put::put32(d, at + 15, budget as u64);
}
