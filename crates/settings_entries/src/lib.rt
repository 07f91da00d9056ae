// An entry of a store of settings: the version that it shows, its kind by its length, and an event in its turn.
#![tactic(auto)]

ghost use Rattle.std.specs.Prelude.{◌≡◌, [], ◌∷◌, ◌+◌, ◌≤◌, length, Some};
ghost use Rattle.meaning.specs.Bytes.{number_at};
ghost use Rattle.entries.specs.Entries.{entry_of};
ghost use Rattle.settings.specs.Versions.{versions, row_of, found, version_of, place_of};
ghost use Rattle.settings.specs.Reading.{shows_version, is_event, is_last, is_event_of, fits, in_turn};

use entries::{Entry, EntryKind};
use settings::{ONE, TWO, Version};

// The version with a number, of those that this build reads.
pub fn version_of(number: u64) -> Option<Version>
    ensures { found result ≡ version_of versions number }
{
    if number == ONE.number {
        return Some(ONE);
    }
    if number == TWO.number {
        return Some(TWO);
    }
    None
}

pub fn shows_version(e: Entry) -> bool
    ensures { result ≡ shows_version (entry_of (Some e)) }
{
    e.is_of(EntryKind::Version) && e.length == 2
}

fn is_event(v: Version, e: Entry) -> bool
    ensures { result ≡ is_event (row_of v) (entry_of (Some e)) }
{
    e.is_of(EntryKind::Event) && e.length == v.width + 48
}

pub fn is_last(e: Entry) -> bool
    ensures { result ≡ is_last (entry_of (Some e)) }
{
    e.is_of(EntryKind::Last) && e.length == 13
}

// An event of any version that this build reads.
pub fn is_any_event(e: Entry) -> bool
    ensures { result ≡ is_event_of versions (entry_of (Some e)) }
{
    is_event(ONE, e) || is_event(TWO, e)
}

pub fn fits(v: Version, e: Entry) -> bool
    ensures { result ≡ fits (row_of v ∷ []) (entry_of (Some e)) }
{
    shows_version(e) || (is_event(v, e) || is_last(e))
}

fn index_at(bytes: &[u8], at: usize, width: usize) -> u64
    requires { (1 ≤ width) × (width ≤ 2) × (at + width ≤ length bytes.now) }
    ensures { result ≡ number_at width bytes.now at }
{
    if width == 1 {
        return wire::u8_at(bytes, at);
    }
    wire::u16_at(bytes, at)
}

// Does the event entry of index n stand at its place?
pub fn in_turn(bytes: &[u8], v: Version, at: usize, n: usize) -> bool
    requires { at ≡ place_of (row_of v) n }
    ensures { result ≡ in_turn (row_of v) bytes.now n }
{
    let Some(e) = entries::entry_at(bytes, at) else {
        return false;
    };
    if !is_event(v, e) {
        return false;
    }
    index_at(bytes, at + 6, v.width) == n as u64
}
