// The words of each type's fields and of the trailer, into lent words: the pass that fills them.
#![tactic(auto)]

ghost use Rattle.meaning.specs.Reasons.{cursor_of};
ghost use Rattle.meaning.specs.Schema.{schema, trailer as trailer_of};
ghost use Rattle.meaning.specs.Values.{body_words, trail_words};
ghost use Rattle.fills.specs.Chains.{Ready, Filling};

use meaning::{Attributes, Spot, Width};
use pass::Pass;

// The record's bytes, the place in it with the counts, and the words that are filled.
#[derive(Drop)]
struct Fill<'r, 'w> {
    bytes: &'r [u8],
    spot: Spot,
    words: &'w mut [u64],
}

impl Pass for Fill<'_, '_> {
    ghost use Rattle.chains.specs.Fills.{MayFill, Filled, laws};

    ghost Ready = { MayFill };

    ghost Done = { Filled };

    ghost laws = { laws };

    fn number(&mut self, on: bool, w: usize, width: Width) {
        self.spot = fills::number(self.bytes, self.spot, on, self.words, w, width);
    }

    fn count(&mut self, on: bool, w: usize, width: Width) {
        self.spot = fills::count(self.bytes, self.spot, on, self.words, w, width);
    }

    fn size(&mut self, on: bool, w: usize, width: Width) {
        self.spot = fills::size(self.bytes, self.spot, on, self.words, w, width);
    }

    fn limit(&mut self, on: bool, w: usize) {
        self.spot = fills::limit(self.bytes, self.spot, on, self.words, w);
    }

    fn abi(&mut self, on: bool, w: usize, mask: u64) {
        self.spot = fills::abi(self.bytes, self.spot, on, self.words, w, mask);
    }

    fn filled(&mut self, on: bool, w: usize) {
        self.spot = fills::filled(self.bytes, self.spot, on, self.words, w);
    }

    fn ignored(&mut self, on: bool, w: usize, k: usize) {
        self.spot = fills::ignored(self.bytes, self.spot, on, self.words, w, k);
    }

    fn pad(&mut self, on: bool, w: usize) {
        self.spot = fills::pad(self.bytes, self.spot, on, self.words, w);
    }

    fn times(&mut self, on: bool, w: usize, k: usize) {
        self.spot = fills::times(self.bytes, self.spot, on, self.words, w, k);
    }

    fn values(&mut self, on: bool, w: usize, f: u64) {
        self.spot = fills::values(self.bytes, self.spot, on, self.words, w, f);
    }

    fn earlier(&mut self, on: bool, w: usize) {
        self.spot = fills::earlier(self.bytes, self.spot, on, self.words, w);
    }

    fn registers(&mut self, on: bool, w: usize) {
        self.spot = fills::registers(self.bytes, self.spot, on, self.words, w);
    }

    fn listed(&mut self, on: bool, w: usize) {
        self.spot = fills::listed(self.bytes, self.spot, on, self.words, w);
    }

    fn bytes(&mut self, on: bool, w: usize) {
        self.spot = fills::bytes(self.bytes, self.spot, on, self.words, w);
    }

    fn name(&mut self, on: bool, w: usize) {
        self.spot = fills::name(self.bytes, self.spot, on, self.words, w);
    }
}

// The fields of a type; a type that has none, or that document 01 does not have, changes nothing.
pub fn fields(s: &[u8], kind: u64, misc: u64, a: Attributes, c: Spot, out: &mut [u64]) -> Spot
    requires { Ready (schema kind misc a) s.now (cursor_of c) out.old body_words }
    ensures { Filling (schema kind misc a) s.now (cursor_of c) out.old body_words out.new (cursor_of result) }
{
    let mut fill = Fill {
        bytes: s,
        spot: c,
        words: out,
    };
    pass_types::fields(&mut fill, kind, misc, a);
    fill.spot
}

// The trailer of a record of this type, the place at its start.
pub fn trail(s: &[u8], kind: u64, a: Attributes, c: Spot, out: &mut [u64]) -> Spot
    requires { Ready (trailer_of kind a) s.now (cursor_of c) out.old trail_words }
    ensures { Filling (trailer_of kind a) s.now (cursor_of c) out.old trail_words out.new (cursor_of result) }
{
    let mut fill = Fill {
        bytes: s,
        spot: c,
        words: out,
    };
    pass_types::trail(&mut fill, kind, a);
    fill.spot
}
