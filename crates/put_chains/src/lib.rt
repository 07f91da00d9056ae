// The bytes of each type's fields and of the trailer: the pass that puts them.
#![tactic(auto)]

ghost use Rattle.std.specs.Prelude.{◌≡◌, ◌≤◌, length};
ghost use Rattle.meaning.specs.Schema.{schema, trailer as trailer_of};
ghost use Rattle.meaning.specs.Values.{body_words, trail_words, value_words};
ghost use Rattle.write_puts.specs.Puts.{Ready, Placed};

use meaning::{Attributes, Width};
use pass::Pass;
use write_fits::Walked;

// The words of a value with its source, the state of the walk over its items, and the bytes that are put.
#[derive(Drop)]
struct Put<'r, 'b> {
    words: &'r [u64],
    source: &'r [u8],
    state: Walked,
    buffer: &'b mut [u8],
}

// The state after an item, in place of the one before it.
// kept: field by field: a copy of the whole moves the bytes behind `bad` along too, through every item of a chain (d).
fn keep(next: Walked, state: &mut Walked)
    ensures { state.new ≡ next }
{
    state.at = next.at;
    state.n = next.n;
    state.old = next.old;
    state.told = next.told;
    state.before = next.before;
    state.bad = next.bad;
}

#[tactic(auto, unfolding(meaning::specs::Values::width, meaning::specs::Values::tell))]
impl Pass for Put<'_, '_> {
    ghost use Rattle.put_chains.specs.Puts.{MayPut, Laid, laws};

    ghost Ready = { MayPut };

    ghost Done = { Laid };

    ghost laws = { laws };

    fn number(&mut self, on: bool, w: usize, width: Width) {
        keep(
            write_puts::number(
                self.words,
                self.source,
                self.state,
                on,
                w,
                self.buffer,
                width,
            ),
            &mut self.state,
        );
    }

    fn count(&mut self, on: bool, w: usize, width: Width) {
        keep(
            write_puts::count(
                self.words,
                self.source,
                self.state,
                on,
                w,
                self.buffer,
                width,
            ),
            &mut self.state,
        );
    }

    fn size(&mut self, on: bool, w: usize, width: Width) {
        keep(
            write_puts::size(
                self.words,
                self.source,
                self.state,
                on,
                w,
                self.buffer,
                width,
            ),
            &mut self.state,
        );
    }

    fn limit(&mut self, on: bool, w: usize) {
        keep(
            write_puts::limit(self.words, self.source, self.state, on, w, self.buffer),
            &mut self.state,
        );
    }

    fn abi(&mut self, on: bool, w: usize, mask: u64) {
        keep(
            write_puts::abi(
                self.words,
                self.source,
                self.state,
                on,
                w,
                self.buffer,
                mask,
            ),
            &mut self.state,
        );
    }

    fn filled(&mut self, on: bool, w: usize) {
        keep(
            write_puts::filled(self.words, self.source, self.state, on, w, self.buffer),
            &mut self.state,
        );
    }

    fn ignored(&mut self, on: bool, w: usize, k: usize) {
        keep(
            write_puts::ignored(self.words, self.source, self.state, on, w, self.buffer, k),
            &mut self.state,
        );
    }

    fn pad(&mut self, on: bool, w: usize) {
        keep(
            write_puts::pad(self.words, self.source, self.state, on, w, self.buffer),
            &mut self.state,
        );
    }

    fn times(&mut self, on: bool, w: usize, k: usize) {
        keep(
            write_puts::times(self.words, self.source, self.state, on, w, self.buffer, k),
            &mut self.state,
        );
    }

    fn values(&mut self, on: bool, w: usize, f: u64) {
        keep(
            write_puts::values(self.words, self.source, self.state, on, w, self.buffer, f),
            &mut self.state,
        );
    }

    fn earlier(&mut self, on: bool, w: usize) {
        keep(
            write_puts::earlier(self.words, self.source, self.state, on, w, self.buffer),
            &mut self.state,
        );
    }

    fn registers(&mut self, on: bool, w: usize) {
        keep(
            write_puts::registers(self.words, self.source, self.state, on, w, self.buffer),
            &mut self.state,
        );
    }

    fn listed(&mut self, on: bool, w: usize) {
        keep(
            write_puts::listed(self.words, self.source, self.state, on, w, self.buffer),
            &mut self.state,
        );
    }

    fn bytes(&mut self, on: bool, w: usize) {
        keep(
            write_puts::bytes(self.words, self.source, self.state, on, w, self.buffer),
            &mut self.state,
        );
    }

    fn name(&mut self, on: bool, w: usize) {
        keep(
            write_puts::name(self.words, self.source, self.state, on, w, self.buffer),
            &mut self.state,
        );
    }
}

// The fields of a type; a type that has none, or that document 01 does not have, has no bytes.
pub fn fields(
    ws: &[u64],
    source: &[u8],
    kind: u64,
    misc: u64,
    a: Attributes,
    c: Walked,
    buffer: &mut [u8],
) -> Walked
    requires { Ready (schema kind misc a) source.now ws.now body_words c buffer.old × (value_words ≤ length ws.now) }
    ensures { Placed (schema kind misc a) source.now ws.now body_words c buffer.old buffer.new result }
{
    let mut put = Put {
        words: ws,
        source,
        state: c,
        buffer,
    };
    pass_types::fields(&mut put, kind, misc, a);
    put.state
}

// The trailer of a record of this type.
pub fn trail(
    ws: &[u64],
    source: &[u8],
    kind: u64,
    a: Attributes,
    c: Walked,
    buffer: &mut [u8],
) -> Walked
    requires { Ready (trailer_of kind a) source.now ws.now trail_words c buffer.old × (value_words ≤ length ws.now) }
    ensures { Placed (trailer_of kind a) source.now ws.now trail_words c buffer.old buffer.new result }
{
    let mut put = Put {
        words: ws,
        source,
        state: c,
        buffer,
    };
    pass_types::trail(&mut put, kind, a);
    put.state
}
