// The bench of a replay (M-106), what it counts at an entry, and an offered record: put into the ring whole, or dropped.
#![tactic(auto)]

ghost use Rattle.std.specs.Prelude.{◌≡◌, ◌+◌, ◌^◌, ◌<◌, ◌≤◌, length};
ghost use Rattle.replay.specs.Steps.{count_in, count_by, count_drain, offered};
ghost use Rattle.replay_offer.specs.Benches.{lent_of, SameBench};

use meaning::Drained;
use replay::Replayed;

// Ring and scratch, the two halves of one lent slice; the journal, one over all drains; and what is counted so far.
#[derive(Drop)]
pub struct Bench<'a> {
    pub rooms: &'a mut [u8],
    pub half: usize,
    pub journal: &'a mut [u8],
    pub counts: Replayed,
}

// kept: each sum asks for its own bound: Replayed is C's struct, and holds whatever C reads of it.
fn count_in(s: Replayed, n: u64) -> Replayed
    requires entries_bound { s.entries + 1 < 2 ^ 64 }
    requires n_bound { s.offered_bytes + n < 2 ^ 64 }
    ensures { result ≡ count_in s n }
{
    let head = std::num::wrapping_add_u64(s.head, n);
    Replayed {
        entries: s.entries + 1,
        offered_bytes: s.offered_bytes + n,
        held_bytes: ring::distance(head, s.tail),
        head,
        ..s
    }
}

fn count_by(s: Replayed, n: u64) -> Replayed
    requires entries_bound { s.entries + 1 < 2 ^ 64 }
    requires n_bound { s.offered_bytes + n < 2 ^ 64 }
    requires n_bound_2 { s.dropped_bytes + n < 2 ^ 64 }
    requires dropped_bound { s.dropped + 1 < 2 ^ 64 }
    ensures { result ≡ count_by s n }
{
    Replayed {
        entries: s.entries + 1,
        offered_bytes: s.offered_bytes + n,
        dropped_bytes: s.dropped_bytes + n,
        dropped: s.dropped + 1,
        ..s
    }
}

// The drain's own stop ends nothing: the answer stays.
pub fn count_drain(s: Replayed, d: Drained) -> Replayed
    requires entries_bound { s.entries + 1 < 2 ^ 64 }
    requires bytes_bound { s.drained_bytes + d.bytes < 2 ^ 64 }
    requires taken_bound { s.taken + d.taken < 2 ^ 64 }
    ensures { result ≡ count_drain s d }
{
    Replayed {
        entries: s.entries + 1,
        drained_bytes: s.drained_bytes + d.bytes,
        held_bytes: ring::distance(s.head, d.tail),
        taken: s.taken + d.taken,
        tail: d.tail,
        ..s
    }
}

impl Bench<'_> {
    // "An offered record goes in whole if its size fits the free room, and otherwise is dropped and counted": the free room is
    // what is not between tail and head.
    pub fn offer(&mut self, r: &[u8])
        requires half_nonzero { 0 < self.old.half }
        requires half_in_bounds { self.old.half ≤ length self.old.rooms.now }
        requires held_bytes_bound { self.old.counts.held_bytes ≤ self.old.half }
        requires entries_bound { self.old.counts.entries + 1 < 2 ^ 64 }
        requires r_bound { self.old.counts.offered_bytes + length r.now < 2 ^ 64 }
        requires r_bound_2 { self.old.counts.dropped_bytes + length r.now < 2 ^ 64 }
        requires dropped_bound { self.old.counts.dropped + 1 < 2 ^ 64 }
        ensures lent_after { lent_of self.new ≡ offered self.old.half (lent_of self.old) r.now }
        ensures same { SameBench self.old self.new }
    {
        let n = r.len() as u64;
        let free = self.half as u64 - self.counts.held_bytes;
        if free < n {
            self.counts = count_by(self.counts, n);
            return;
        }
        let head = self.counts.head as usize;
        rooms::put_round(&mut self.rooms[..self.half], head % self.half, r);
        self.counts = count_in(self.counts, n);
    }
}
