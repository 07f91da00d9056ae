// A salvage at one place: the record that is kept there, if one is.
#![tactic(auto)]

ghost use Rattle.std.specs.Prelude.{◌≡◌, ◌<◌, cond, unwrap_or, IfSome};
ghost use Rattle.meaning.specs.Editions.{editions};
ghost use Rattle.meaning.specs.Records.{size_of};
ghost use Rattle.salvage.specs.Salvage.{keeps, table_judge};

use meaning::Event;

// The size of the record that is kept at a place, by the bytes left there, if one is.
pub fn kept_size(left: &[u8], e: u64, events: &[Event]) -> Option<usize>
    ensures value { unwrap_or result 0 ≡ cond (keeps (table_judge editions e events.now) left.now) (size_of left.now) 0 }
    ensures positive { IfSome result (λ size. 0 < size) }
{
    if left.len() < 8 {
        return None;
    }
    let size = wire::u16_at(left, 6) as usize;
    if size < 8 {
        return None;
    }
    if size % 8 != 0 {
        return None;
    }
    if left.len() < size {
        return None;
    }
    if event_judge::judge(&left[..size], e, events).is_err() {
        return None;
    }
    Some(size)
}
