// What misc means: the CPU mode, and bits 13 and 14 by the record's type.
#![tactic(auto)]

ghost use Rattle.std.specs.Prelude.{◌≡◌, ◌≤◌};
ghost use Rattle.meaning.specs.Misc.{cpu_mode, means13, means14, misc_meaning};

use meaning::{Bit13, Bit14, Kind};

// "Misc is kept whole. Its lowest three bits are the CPU mode."
pub fn cpu_mode(misc: u64) -> u64
    ensures { (result ≡ cpu_mode misc) × (result ≤ 7) }
{
    wire::low3(misc)
}

// "Bit 13 means data mapping (MMAP, MMAP2), exec (COMM) or switched out (types 14, 15)"
#[tactic(auto, unfolding(meaning::specs::Misc::means13, meaning::specs::Misc::types13))]
pub fn bit_13_means(kind: u64, misc: u64) -> Bit13
    ensures { result ≡ means13 kind misc }
{
    if !wire::has_bit(misc, 13) {
        return Bit13::Nothing;
    }
    match Kind::try_from(kind) {
        Ok(Kind::Mmap | Kind::Mmap2) => Bit13::DataMapping,
        Ok(Kind::Comm) => Bit13::Exec,
        Ok(Kind::Switch | Kind::SwitchCpuWide) => Bit13::SwitchedOut,
        _ => Bit13::Nothing,
    }
}

// "bit 14 means exact address (SAMPLE), preempted (14, 15) or build id (MMAP2)."
#[tactic(auto, unfolding(meaning::specs::Misc::means14, meaning::specs::Misc::types14))]
pub fn bit_14_means(kind: u64, misc: u64) -> Bit14
    ensures { result ≡ means14 kind misc }
{
    if !wire::has_bit(misc, 14) {
        return Bit14::Nothing;
    }
    match Kind::try_from(kind) {
        Ok(Kind::Sample) => Bit14::ExactAddress,
        Ok(Kind::Switch | Kind::SwitchCpuWide) => Bit14::Preempted,
        Ok(Kind::Mmap2) => Bit14::BuildId,
        _ => Bit14::Nothing,
    }
}

// All of it in one number.
#[tactic(auto, unfolding(meaning::specs::Misc::misc_meaning))]
pub fn meaning_of(kind: u64, misc: u64) -> u32
    ensures { result ≡ misc_meaning kind misc }
{
    let mode = cpu_mode(misc) as u32;
    let by_13 = bit_13_means(kind, misc).number();
    let by_14 = bit_14_means(kind, misc).number();
    mode + (by_13 + by_14)
}
