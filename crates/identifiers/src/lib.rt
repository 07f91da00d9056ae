// Identifiers of events, in a list that is lent as words or as events: the lookup, and whether two are equal.
#![tactic(auto)]

ghost use Rattle.std.specs.Prelude.{◌≡◌, ◌<◌, ℕ, not, ◌&&◌, eqb, length, map, unwrap_or, IfSome};
ghost use Rattle.meaning.specs.Editions.{is_in};
ghost use Rattle.meaning.specs.Events.{distinct, index_of};

use meaning::Event;

// What has an identifier: a word that is one, and an event.
pub trait Identified {
    ghost identifier_of: { Self → ℕ };

    fn identifier(&self) -> u64
        ensures { result ≡ identifier_of self.now };
}

impl Identified for u64 {
    ghost identifier_of = { λ word. word };

    fn identifier(&self) -> u64 {
        *self
    }
}

impl Identified for Event {
    ghost identifier_of = { λ event. event.identifier };

    fn identifier(&self) -> u64 {
        self.identifier
    }
}

// The index of the first with this identifier, if there is one.
pub fn find<T: Identified>(table: &[T], id: u64) -> Option<usize>
    ensures value { unwrap_or result (length table.now) ≡ index_of id (map T.identifier_of table.now) }
    ensures found { IfSome result (λ i. i < length table.now) }
{
    table.iter().position(|entry| entry.identifier() == id)
}

// The same among words.
pub fn find_id(ids: &[u64], id: u64) -> Option<usize>
    ensures value { unwrap_or result (length ids.now) ≡ index_of id ids.now }
    ensures found { IfSome result (λ i. i < length ids.now) }
{
    find(ids, id)
}

// Is x the identifier of one of them? Asked only where there is a mark.
fn met<T: Identified>(table: &[T], x: u64, mark: u8) -> bool
    ensures { result ≡ (not (eqb mark 0) && is_in x (map T.identifier_of table.now)) }
{
    mark != 0 && find(table, x).is_some()
}

// Are no two identifiers equal? From the last to the first: each marks its remainder by 8,192, and only where there is
// a mark already are those behind it looked through. No copy of the identifiers is made, and their number has no bound.
pub fn apart<T: Identified>(table: &[T]) -> bool
    ensures { result ≡ distinct (map T.identifier_of table.now) }
{
    let mut seen = [0u8; 8192];
    for i in (0..table.len()).rev() {
        let x = table[i].identifier();
        let h = (x % 8192) as usize;
        if met(&table[i + 1..], x, seen[h]) {
            return false;
        }
        seen[h] = 1;
    }
    true
}

// The same of words.
pub fn distinct(ids: &[u64]) -> bool
    ensures { result ≡ distinct ids.now }
{
    apart(ids)
}
