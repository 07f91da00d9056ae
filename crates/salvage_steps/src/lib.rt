// A step of a salvage: the place, the counts, and what is written: a record that is kept, the entry of a hole that ends.
#![tactic(auto)]

ghost use Rattle.std.specs.Prelude.{◌≡◌, cond, ◌+◌, ◌*◌, ◌^◌, ◌<◌, ◌≤◌, ltb, length, unwrap_or, IfSome};
ghost use Rattle.salvage.specs.Salvage.{run, hole_bytes};
ghost use Rattle.salvage.specs.Walks.{advanced_by, closed, list_closed, out_by, list_by};

use entries::EntryKind;
use salvage::Walk;

// A step of the walk: a record is kept, or 8 bytes are dropped, or all that is left if fewer.
pub fn advance(w: Walk, kept: Option<usize>, left: usize) -> Walk
    requires { (w.at + left < 2 ^ 64) × (unwrap_or kept 0 ≤ left) × (w.kept + unwrap_or kept 0 < 2 ^ 64) × (w.holes + 1 < 2 ^ 64) }
    ensures { result ≡ advanced_by w kept left }
{
    match kept {
        None => {
            let n = left.min(8);
            Walk { at: w.at + n, ..w }
        }
        Some(size) => {
            let at = w.at + size;
            let holes = closed(w);
            Walk {
                at,
                start: at,
                kept: w.kept + size,
                holes,
            }
        }
    }
}

// The holes once that is closed that ends at the place, if one does.
pub fn closed(w: Walk) -> usize
    requires { w.holes + 1 < 2 ^ 64 }
    ensures { result ≡ closed w }
{
    if w.start < w.at { w.holes + 1 } else { w.holes }
}

// The entry of a hole: kind 32, its start and its length.
fn hole_entry(start: u64, n: u64) -> [u8; 22]
    ensures { result ≡ hole_bytes (run start n) }
{
    let mut bytes = [0; 22];
    entries::put_head(&mut bytes, 0, EntryKind::Hole.number(), 16);
    put::put64(&mut bytes, 6, start);
    put::put64(&mut bytes, 14, n);
    bytes
}

// The hole that ends at the place is written, if one does.
pub fn write_closed(w: Walk, list: &mut [u8])
    requires { w.start < w.at → 22 * w.holes + 22 ≤ length list.old }
    ensures { list.new ≡ list_closed w list.old }
{
    let at = w.at;
    let start = w.start;
    if start < at {
        let hole = hole_entry(start as u64, (at - start) as u64);
        put::copy_at(&hole, list, 22 * w.holes);
    }
}

// What a step writes: the record that is kept, and the hole that ends before it.
pub fn write_step(xs: &[u8], w: Walk, kept: Option<usize>, out: &mut [u8], list: &mut [u8])
    requires size_in_bounds { w.at + unwrap_or kept 0 ≤ length xs.now }
    requires holes_in_bounds { IfSome kept (λ size. w.start < w.at → 22 * w.holes + 22 ≤ length list.old) }
    ensures out_after { out.new ≡ out_by xs.now w kept out.old }
    ensures list_after { list.new ≡ list_by w kept list.old }
{
    let Some(size) = kept else {
        return;
    };
    let at = w.at;
    put::copy_at(&xs[at..at + size], out, w.kept);
    write_closed(w, list);
}
