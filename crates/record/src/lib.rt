// One record: the flag of its name, and record check's 44. What it is read by is passed on: editions and 20 to 25, the
// walk, the trailer, record check.
#![tactic(auto)]

ghost use Rattle.std.specs.Prelude.{◌≡◌};
ghost use Rattle.meaning.specs.Records.{kind_of};
ghost use Rattle.meaning.specs.Reasons.{answer_of};
ghost use Rattle.record.specs.Into.{Accepted, or_dirty};

pub use answers::{Stopped, check, header_of_whole, judge, trailer_room, walk};
pub use flag::stale_from;
use meaning::{Attributes, Reason};
pub use rules::{allowed, edition, unreadable};

pub mod flag;

// "Where [the flag] is set, record check, and nothing else, answers 44 instead of 0" (M-107): one step after the answer
// that record check shares with the readers, whoever found it.
pub fn or_dirty(answer: Result<(), Reason>, r: &[u8], a: Attributes) -> Result<(), Reason>
    requires { answer_of answer ≡ 0 → Accepted a r.now (kind_of r.now) }
    ensures { answer_of result ≡ or_dirty (answer_of answer) a r.now }
{
    answer?;
    let kind = wire::u32_at(r, 0);
    if flag::is_dirty(r, kind, a) {
        return Err(Reason::DirtyName);
    }
    Ok(())
}
