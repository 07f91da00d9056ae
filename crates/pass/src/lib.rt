// A pass over the items of a record, in the order of the schema: a method for each shape, given its guard and the
// number of its first word. The reader that fills words, the writer's test of them and the writer that puts bytes are
// passes; what a chain of calls does is proved once, of any pass.
#![tactic(auto)]

ghost use Rattle.std.specs.Prelude.{List, [], ◌∷◌, ℕ, ◌≤◌};
ghost use Rattle.meaning.specs.declared.Item.{Item};
ghost use Rattle.meaning.specs.declared.Shape.TheVariants.{Number, Ignored, Count, Size, Times, Earlier, Registers, Filled, Abi, Limit, Listed, Bytes, Pad, Name};
ghost use Rattle.meaning.specs.Schema.{item, group_bytes};
ghost use Rattle.pass.specs.Laws.{PassLaws};

use meaning::Width;

pub trait Pass {
    // What a pass over items asks before the word of the first, and what it leaves.
    ghost Ready: { List Item → Self → ℕ → Type 0 };

    ghost Done: { List Item → Self → ℕ → Self → Type 0 };

    // Two passes one after the other are one over both lists.
    ghost laws: { PassLaws Ready Done };

    // A number of a width.
    fn number(&mut self, on: bool, w: usize, width: Width)
        requires { Ready (item on (Number width) ∷ []) self.old w }
        ensures { Done (item on (Number width) ∷ []) self.old w self.new };

    // A number that later items are counted by; the one before it stays remembered.
    fn count(&mut self, on: bool, w: usize, width: Width)
        requires { Ready (item on (Count width) ∷ []) self.old w }
        ensures { Done (item on (Count width) ∷ []) self.old w self.new };

    // The same, of bytes; the one before it is not remembered.
    fn size(&mut self, on: bool, w: usize, width: Width)
        requires { Ready (item on (Size width) ∷ []) self.old w }
        ensures { Done (item on (Size width) ∷ []) self.old w self.new };

    // The byte that counts a build id.
    fn limit(&mut self, on: bool, w: usize)
        requires { Ready (item on (Limit 20) ∷ []) self.old w }
        ensures { Done (item on (Limit 20) ∷ []) self.old w self.new };

    // An abi word; as many registers follow as the mask has ones, or none.
    fn abi(&mut self, on: bool, w: usize, mask: u64)
        requires { Ready (item on (Abi mask) ∷ []) self.old w }
        ensures { Done (item on (Abi mask) ∷ []) self.old w self.new };

    // The filled length of a stack; none where the stack's size is 0.
    fn filled(&mut self, on: bool, w: usize)
        requires { Ready (item on Filled ∷ []) self.old w }
        ensures { Done (item on Filled ∷ []) self.old w self.new };

    // Bytes that say nothing: no word.
    fn ignored(&mut self, on: bool, w: usize, k: usize)
        requires { Ready (item on (Ignored k) ∷ []) self.old w × (k ≤ 8) }
        ensures { Done (item on (Ignored k) ∷ []) self.old w self.new };

    // Up to the next multiple of 8: no word.
    fn pad(&mut self, on: bool, w: usize)
        requires { Ready (item on Pad ∷ []) self.old w }
        ensures { Done (item on Pad ∷ []) self.old w self.new };

    // As many elements of k bytes as the last count says.
    fn times(&mut self, on: bool, w: usize, k: usize)
        requires { Ready (item on (Times k) ∷ []) self.old w × (1 ≤ k) × (k ≤ 4096) }
        ensures { Done (item on (Times k) ∷ []) self.old w self.new };

    // The entries of a group, by the read format.
    fn values(&mut self, on: bool, w: usize, f: u64)
        requires { Ready (item on (Times (group_bytes f)) ∷ []) self.old w }
        ensures { Done (item on (Times (group_bytes f)) ∷ []) self.old w self.new };

    // As many bytes as the count before the last one says.
    fn earlier(&mut self, on: bool, w: usize)
        requires { Ready (item on (Earlier 1) ∷ []) self.old w }
        ensures { Done (item on (Earlier 1) ∷ []) self.old w self.new };

    // As many registers as the abi word left; their count is the next word.
    fn registers(&mut self, on: bool, w: usize)
        requires { Ready (item on Registers ∷ []) self.old w }
        ensures { Done (item on Registers ∷ []) self.old w self.new };

    // The bytes of a build id.
    fn listed(&mut self, on: bool, w: usize)
        requires { Ready (item on (Listed 20) ∷ []) self.old w }
        ensures { Done (item on (Listed 20) ∷ []) self.old w self.new };

    // The tag of BPF_EVENT; its count is the next word.
    fn bytes(&mut self, on: bool, w: usize)
        requires { Ready (item on (Bytes 8) ∷ []) self.old w }
        ensures { Done (item on (Bytes 8) ∷ []) self.old w self.new };

    // A name; its count is the next word.
    fn name(&mut self, on: bool, w: usize)
        requires { Ready (item on Name ∷ []) self.old w }
        ensures { Done (item on Name ∷ []) self.old w self.new };
}

// A crate has a function; this one does nothing.
pub fn nothing() {}
