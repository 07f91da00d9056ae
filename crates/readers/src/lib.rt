// Two readers of one ring, each with its own tail (M-105): which tail is handed to the kernel. The positions go by value; each
// reader drains by its own tail alone.
#![tactic(auto)]

ghost use Rattle.std.specs.Prelude.{◌≡◌};
ghost use Rattle.readers.specs.Readers.{readers_at, first_moved, second_moved, published, published_of};

use meaning::Reason;

// The tail counts of the two readers.
#[derive(Clone, Copy, Debug, PartialEq, Eq)]
pub struct Readers {
    pub first: u64,
    pub second: u64,
}

// The tail for the kernel, and 0; or a refusal, and then the tail is 0 and is not handed out.
#[repr(C)]
#[derive(Clone, Copy, Debug, PartialEq, Eq)]
pub struct Published {
    pub tail: u64,
    pub answer: u32,
}

impl Readers {
    pub fn new(first: u64, second: u64) -> Self
        ensures { result ≡ readers_at first second }
    {
        Self { first, second }
    }

    // One of the two has taken so many bytes; the other stays where it is.
    // kept: (a) a function for each reader, as the theorems first-moves-on and second-moves-on name them.
    pub fn advance_first(self, bytes: u64) -> Self
        ensures { result ≡ first_moved self bytes }
    {
        Self {
            first: self.first.wrapping_add(bytes),
            ..self
        }
    }

    pub fn advance_second(self, bytes: u64) -> Self
        ensures { result ≡ second_moved self bytes }
    {
        Self {
            second: self.second.wrapping_add(bytes),
            ..self
        }
    }

    // Rows 1, 4 and 5 for the first reader, then for the second: 2 and 11 are no part of it. Then the tail at the greater distance.
    fn further(self, n: usize, head: u64) -> Result<u64, Reason>
        ensures { published_of result ≡ published n head self }
    {
        ring::call_refusal(true, true, n, head, self.first)?;
        ring::call_refusal(true, true, n, head, self.second)?;
        if ring::distance(head, self.first) < ring::distance(head, self.second) {
            Ok(self.second)
        } else {
            Ok(self.first)
        }
    }

    // The tail for the kernel, or why there is none, as C reads it.
    pub fn publish(self, len: u64, head: u64) -> Published
        ensures { result ≡ published len head self }
    {
        match self.further(len as usize, head) {
            Ok(tail) => Published { tail, answer: 0 },
            Err(reason) => Published {
                tail: 0,
                answer: reason.number() as u32,
            },
        }
    }
}
