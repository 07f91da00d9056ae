// The salvage of a damaged stream: accepted records are kept, what lies between them is dropped and listed.
#![tactic(auto)]

ghost use Rattle.std.specs.Prelude.{◌≡◌, cond, true, length};
ghost use Rattle.meaning.specs.Bytes.{put};
ghost use Rattle.meaning.specs.Editions.{editions};
ghost use Rattle.meaning.specs.Reasons.{number_of};
ghost use Rattle.salvage.specs.Salvage.{output, holes, changes, tells, table_judge, salvage_told, salvage_out, salvage_list};
ghost use Rattle.salvage.specs.Walks.{Room};

use meaning::{Event, Reason};
use salvage::{Salvaged, Walk};

// The walk of both passes. WRITES is known where it is called, so that the pass that only measures tests nothing for it.
fn walk<const WRITES: bool>(
    xs: &[u8],
    e: u64,
    events: &[Event],
    out: &mut [u8],
    list: &mut [u8],
) -> Walk
    requires { WRITES ≡ true → Room (table_judge editions e events.now) xs.now out.old list.old }
    ensures counts { (result.kept ≡ length (output (table_judge editions e events.now) xs.now)) × (result.holes ≡ length (holes (table_judge editions e events.now) xs.now)) }
    ensures out_after { out.new ≡ cond WRITES (put out.old 0 (output (table_judge editions e events.now) xs.now)) out.old }
    ensures list_after { list.new ≡ cond WRITES (put list.old 0 (changes (holes (table_judge editions e events.now) xs.now))) list.old }
{
    let mut w = Walk {
        at: 0,
        start: 0,
        kept: 0,
        holes: 0,
    };
    while w.at < xs.len() {
        let kept = salvage_kept::kept_size(&xs[w.at..], e, events);
        if WRITES {
            salvage_steps::write_step(xs, w, kept, out, list);
        }
        w = salvage_steps::advance(w, kept, xs.len() - w.at);
    }
    if WRITES {
        salvage_steps::write_closed(w, list);
    }
    let holes = salvage_steps::closed(w);
    Walk {
        start: w.at,
        holes,
        ..w
    }
}

// The first pass: the bytes kept and the holes. Nothing is written.
fn measure(xs: &[u8], e: u64, events: &[Event]) -> Walk
    ensures { (result.kept ≡ length (output (table_judge editions e events.now) xs.now)) × (result.holes ≡ length (holes (table_judge editions e events.now) xs.now)) }
{
    walk::<false>(xs, e, events, &mut [], &mut [])
}

// The second pass: the output and the list, where there is room for both.
fn write_all(xs: &[u8], e: u64, events: &[Event], out: &mut [u8], list: &mut [u8])
    requires { Room (table_judge editions e events.now) xs.now out.old list.old }
    ensures out_after { out.new ≡ put out.old 0 (output (table_judge editions e events.now) xs.now) }
    ensures list_after { list.new ≡ put list.old 0 (changes (holes (table_judge editions e events.now) xs.now)) }
{
    walk::<true>(xs, e, events, out, list);
}

// A refusal tells its number alone.
fn refused(reason: Reason) -> Salvaged
    ensures { result ≡ tells 0 0 0 (number_of reason) }
{
    Salvaged {
        kept: 0,
        dropped: 0,
        changes: 0,
        answer: reason.number() as u32,
    }
}

// The salvage of a stream under an edition and a table: 2, 11, and 54 by the first pass; then the second writes. The list's room
// is divided, so that nothing is multiplied that could wrap.
pub fn salvage(
    xs: &[u8],
    e: u64,
    events: &[Event],
    limit: usize,
    out: &mut [u8],
    list: &mut [u8],
) -> Salvaged
    ensures value { result ≡ salvage_told limit editions e events.now xs.now out.old list.old }
    ensures out_after { out.new ≡ salvage_out limit editions e events.now xs.now out.old list.old }
    ensures list_after { list.new ≡ salvage_list limit editions e events.now xs.now out.old list.old }
{
    if !record::allowed(e) {
        return refused(Reason::UnknownEdition);
    }
    if !events::sound(events, limit) {
        return refused(Reason::BadTable);
    }
    let t = measure(xs, e, events);
    if out.len() < t.kept {
        return refused(Reason::SalvageRoom);
    }
    if list.len() / 22 < t.holes {
        return refused(Reason::SalvageRoom);
    }
    write_all(xs, e, events, out, list);
    Salvaged {
        kept: t.kept as u64,
        dropped: (xs.len() - t.kept) as u64,
        changes: (22 * t.holes) as u64,
        answer: 0,
    }
}
