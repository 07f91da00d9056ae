// Whether the words of each type's fields and of the trailer fit: the pass that tests them.
#![tactic(auto)]

ghost use Rattle.std.specs.Prelude.{◌≡◌, ◌+◌, ◌≤◌, length};
ghost use Rattle.meaning.specs.Schema.{schema, trailer as trailer_of};
ghost use Rattle.meaning.specs.Values.{body_width, body_words, trail_words, value_words};
ghost use Rattle.writer_items.specs.Tries.{most_bytes};
ghost use Rattle.write_fits.specs.Steps.{Tried};

use meaning::{Attributes, Kind, Width};
use pass::Pass;
use write_fits::Walked;

// The words of a value with its source, and the state of the walk over its items.
#[derive(Drop)]
struct Fit<'r> {
    words: &'r [u64],
    source: &'r [u8],
    state: Walked,
}

// The state after an item, in place of the one before it.
// kept: field by field: a copy of the whole moves the bytes behind `bad` along too, through every item of a chain (d).
fn keep(next: Walked, state: &mut Walked)
    ensures { state.new ≡ next }
{
    state.at = next.at;
    state.n = next.n;
    state.old = next.old;
    state.told = next.told;
    state.before = next.before;
    state.bad = next.bad;
}

#[tactic(auto, unfolding(meaning::specs::Values::width, meaning::specs::Values::tell))]
impl Pass for Fit<'_> {
    ghost use Rattle.fit_chains.specs.Fits.{MayFit, Fitted, laws};

    ghost Ready = { MayFit };

    ghost Done = { Fitted };

    ghost laws = { laws };

    fn number(&mut self, on: bool, w: usize, width: Width) {
        keep(
            write_fits::number(self.words, self.source, self.state, on, w, width),
            &mut self.state,
        );
    }

    fn count(&mut self, on: bool, w: usize, width: Width) {
        keep(
            write_fits::count(self.words, self.source, self.state, on, w, width),
            &mut self.state,
        );
    }

    fn size(&mut self, on: bool, w: usize, width: Width) {
        keep(
            write_fits::size(self.words, self.source, self.state, on, w, width),
            &mut self.state,
        );
    }

    fn limit(&mut self, on: bool, w: usize) {
        keep(
            write_fits::limit(self.words, self.source, self.state, on, w),
            &mut self.state,
        );
    }

    fn abi(&mut self, on: bool, w: usize, mask: u64) {
        keep(
            write_fits::abi(self.words, self.source, self.state, on, w, mask),
            &mut self.state,
        );
    }

    fn filled(&mut self, on: bool, w: usize) {
        keep(
            write_fits::filled(self.words, self.source, self.state, on, w),
            &mut self.state,
        );
    }

    fn ignored(&mut self, on: bool, w: usize, k: usize) {
        keep(
            write_fits::ignored(self.words, self.source, self.state, on, w, k),
            &mut self.state,
        );
    }

    fn pad(&mut self, on: bool, w: usize) {
        keep(
            write_fits::pad(self.words, self.source, self.state, on, w),
            &mut self.state,
        );
    }

    fn times(&mut self, on: bool, w: usize, k: usize) {
        keep(
            write_fits::times(self.words, self.source, self.state, on, w, k),
            &mut self.state,
        );
    }

    fn values(&mut self, on: bool, w: usize, f: u64) {
        keep(
            write_fits::values(self.words, self.source, self.state, on, w, f),
            &mut self.state,
        );
    }

    fn earlier(&mut self, on: bool, w: usize) {
        keep(
            write_fits::earlier(self.words, self.source, self.state, on, w),
            &mut self.state,
        );
    }

    fn registers(&mut self, on: bool, w: usize) {
        keep(
            write_fits::registers(self.words, self.source, self.state, on, w),
            &mut self.state,
        );
    }

    fn listed(&mut self, on: bool, w: usize) {
        keep(
            write_fits::listed(self.words, self.source, self.state, on, w),
            &mut self.state,
        );
    }

    fn bytes(&mut self, on: bool, w: usize) {
        keep(
            write_fits::bytes(self.words, self.source, self.state, on, w),
            &mut self.state,
        );
    }

    fn name(&mut self, on: bool, w: usize) {
        keep(
            write_fits::name(self.words, self.source, self.state, on, w),
            &mut self.state,
        );
    }
}

// The fields of a type; a type that has none, or that document 01 does not have, has nothing to say.
pub fn fields(ws: &[u64], source: &[u8], kind: u64, misc: u64, a: Attributes, c: Walked) -> Walked
    requires { (c.at ≤ most_bytes) × (value_words ≤ length ws.now) }
    ensures { Tried (schema kind misc a) source.now ws.now body_words c result }
{
    let mut fit = Fit {
        words: ws,
        source,
        state: c,
    };
    pass_types::fields(&mut fit, kind, misc, a);
    fit.state
}

// The trailer of a record of this type.
pub fn trail(ws: &[u64], source: &[u8], kind: u64, a: Attributes, c: Walked) -> Walked
    requires { (c.at ≤ most_bytes) × (value_words ≤ length ws.now) }
    ensures { Tried (trailer_of kind a) source.now ws.now trail_words c result }
{
    let mut fit = Fit {
        words: ws,
        source,
        state: c,
    };
    pass_types::trail(&mut fit, kind, a);
    fit.state
}

// The words before the end of a type's own; what stands after them is zero in every value.
#[tactic(auto, unfolding(meaning::specs::Values::width, meaning::specs::Values::tell, meaning::specs::Values::flag_words, meaning::specs::Writing::named, meaning::specs::Writing::ends))]
pub fn own_end(kind: u64, misc: u64, a: Attributes) -> usize
    ensures { (result ≡ body_words + body_width (schema kind misc a)) × (result ≤ trail_words) }
{
    match Kind::try_from(kind) {
        Ok(Kind::Mmap) => 11,
        Ok(Kind::Lost) => 5,
        Ok(Kind::Comm) => 8,
        Ok(Kind::Exit) => 8,
        Ok(Kind::Throttle) => 6,
        Ok(Kind::Unthrottle) => 6,
        Ok(Kind::Fork) => 8,
        Ok(Kind::Read) => 12,
        Ok(Kind::Sample) => 45,
        Ok(Kind::Mmap2) => 19,
        Ok(Kind::Aux) => 6,
        Ok(Kind::ItraceStart) => 5,
        Ok(Kind::LostSamples) => 4,
        Ok(Kind::Switch) => 3,
        Ok(Kind::SwitchCpuWide) => 5,
        Ok(Kind::Namespaces) => 7,
        Ok(Kind::Ksymbol) => 10,
        Ok(Kind::BpfEvent) => 8,
        Ok(Kind::Cgroup) => 7,
        Ok(Kind::TextPoke) => 8,
        Ok(Kind::AuxOutputHwId) => 4,
        Err(_) => 3,
    }
}
