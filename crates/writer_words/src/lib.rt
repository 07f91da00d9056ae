// What the words of a value give of an item.
#![tactic(auto)]

ghost use Rattle.std.specs.Prelude.{◌≡◌, ◌≤◌, get_or};
ghost use Rattle.writer_words.specs.Tellings.{telling, telling_by, slot_of, start_at, given_slot, reached_after, few_words};

pub use fields::{BODY_WORDS, FREE_WORD, TRAIL_WORDS, VALUE_WORDS};
use meaning::{Item, Shape, Spot};

// What the words give of an item: its number; of a list or a name the place in the source and the count, in elements.
#[derive(Clone, Copy, Debug, PartialEq, Eq)]
pub struct Given {
    pub number: u64,
    pub place: u64,
    pub count: u64,
}

// Which count a list or a name has: the last one, the one before it, or its own second word, where no count word of the
// record holds it.
#[derive(Clone, Copy, Debug, PartialEq, Eq)]
enum ListCount {
    Last,
    Before,
    Own,
}

// How words tell a shape. Ignored bytes have no word. A number has one; it is remembered or not, in the last count's
// place or after it, so that the last one becomes the one before. A list or a name has its place, and maybe its count.
#[derive(Clone, Copy, Debug, PartialEq, Eq)]
enum Wording {
    Unspoken,
    Plain,
    LastCount,
    NextCount,
    Listing(ListCount),
}

// A word of the value; a word past the end counts as 0.
pub fn word(ws: &[u64], k: usize) -> u64
    ensures { result ≡ get_or ws.now k 0 }
{
    ws.get(k).copied().unwrap_or(0)
}

#[tactic(auto, unfolding(crate::specs::Tellings::telling))]
fn wording_of(shape: Shape) -> Wording
    ensures { telling_by result ≡ telling shape }
{
    match shape {
        Shape::Ignored(_) | Shape::Pad => Wording::Unspoken,
        Shape::Number(_) | Shape::Filled | Shape::Abi(_) => Wording::Plain,
        Shape::Size(_) | Shape::Limit(_) => Wording::LastCount,
        Shape::Count(_) => Wording::NextCount,
        Shape::Times(_) | Shape::Listed(_) => Wording::Listing(ListCount::Last),
        Shape::Earlier(_) => Wording::Listing(ListCount::Before),
        Shape::Registers | Shape::Bytes(_) | Shape::Name => Wording::Listing(ListCount::Own),
    }
}

// Before the first word of a part; nothing is remembered.
pub fn start_at(at: usize) -> Spot
    ensures { result ≡ start_at at }
{
    Spot { at, n: 0, old: 0 }
}

// A list that is not selected has no count but a word of its own, which must be 0: the writer looks at it there.
pub fn given_by(ws: &[u64], t: Spot, i: Item) -> Given
    requires { t.at ≤ few_words }
    ensures { slot_of result ≡ given_slot ws.now t i }
{
    let first = word(ws, t.at);
    let counts = if i.on { t } else { start_at(t.at) };
    match wording_of(i.shape) {
        Wording::Unspoken => Given {
            number: 0,
            place: 0,
            count: 0,
        },
        Wording::Plain | Wording::LastCount | Wording::NextCount => Given {
            number: first,
            place: 0,
            count: 0,
        },
        Wording::Listing(ListCount::Last) => Given {
            number: 0,
            place: first,
            count: counts.n,
        },
        Wording::Listing(ListCount::Before) => Given {
            number: 0,
            place: first,
            count: counts.old,
        },
        Wording::Listing(ListCount::Own) => Given {
            number: 0,
            place: first,
            count: word(ws, t.at + 1),
        },
    }
}

// How far the words are told after an item; only a selected one is remembered.
pub fn after(ws: &[u64], t: Spot, i: Item) -> Spot
    requires { t.at ≤ few_words }
    ensures { result ≡ reached_after ws.now t i }
{
    let next = Spot {
        at: t.at + fields::words_of(i.shape),
        ..t
    };
    if !i.on {
        return next;
    }
    match wording_of(i.shape) {
        Wording::LastCount => Spot {
            n: word(ws, t.at),
            ..next
        },
        Wording::NextCount => Spot {
            n: word(ws, t.at),
            old: t.n,
            ..next
        },
        Wording::Unspoken | Wording::Plain | Wording::Listing(_) => next,
    }
}
