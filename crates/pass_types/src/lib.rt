// A pass over each type's fields and over the trailer: a call for each item, in the order of the schema.
// Written by tools/chains.py from the rows of crate table.
#![tactic(auto)]

ghost use Rattle.meaning.specs.Schema.{schema, trailer as trailer_of};
ghost use Rattle.meaning.specs.Values.{body_words, trail_words};
ghost use Rattle.layouts.specs.Lists.{mmap, lost, comm, exit, throttle, read-1, read-2, read, mmap2-1, mmap2-2, mmap2-3, mmap2, itrace-start, lost-samples, namespaces, ksymbol, bpf-event, cgroup, text-poke, trailer-1, trailer-2, trailer};

use meaning::{Attributes, Kind, Width};
use pass::Pass;

// 1 MMAP
fn mmap<P: Pass>(p: &mut P)
    requires { P.Ready mmap p.old body_words }
    ensures { P.Done mmap p.old body_words p.new }
{
    p.number(true, 3, Width::W4); // pid
    p.number(true, 4, Width::W4); // tid
    p.number(true, 5, Width::W8); // addr
    p.number(true, 6, Width::W8); // len
    p.number(true, 7, Width::W8); // pgoff
    p.name(true, 8); // name
}

// 2 LOST
fn lost<P: Pass>(p: &mut P)
    requires { P.Ready lost p.old body_words }
    ensures { P.Done lost p.old body_words p.new }
{
    p.number(true, 3, Width::W8); // id
    p.number(true, 4, Width::W8); // lost
}

// 3 COMM
fn comm<P: Pass>(p: &mut P)
    requires { P.Ready comm p.old body_words }
    ensures { P.Done comm p.old body_words p.new }
{
    p.number(true, 3, Width::W4); // pid
    p.number(true, 4, Width::W4); // tid
    p.name(true, 5); // name
}

// 4 EXIT
fn exit<P: Pass>(p: &mut P)
    requires { P.Ready exit p.old body_words }
    ensures { P.Done exit p.old body_words p.new }
{
    p.number(true, 3, Width::W4); // pid
    p.number(true, 4, Width::W4); // ppid
    p.number(true, 5, Width::W4); // tid
    p.number(true, 6, Width::W4); // ptid
    p.number(true, 7, Width::W8); // time
}

// 5 THROTTLE
fn throttle<P: Pass>(p: &mut P)
    requires { P.Ready throttle p.old body_words }
    ensures { P.Done throttle p.old body_words p.new }
{
    p.number(true, 3, Width::W8); // time
    p.number(true, 4, Width::W8); // id
    p.number(true, 5, Width::W8); // stream id
}

// 8 READ, part 1
fn read_1<P: Pass>(p: &mut P, f: u64)
    requires { P.Ready (read-1 f) p.old body_words }
    ensures { P.Done (read-1 f) p.old body_words p.new }
{
    p.number(true, 3, Width::W4); // pid
    p.number(true, 4, Width::W4); // tid
    p.number(!wire::has_bit(f, 3), 5, Width::W8); // value
    p.count(wire::has_bit(f, 3), 6, Width::W8); // n
    p.number(wire::has_bit(f, 0), 7, Width::W8); // time enabled
}

// 8 READ, part 2
fn read_2<P: Pass>(p: &mut P, f: u64)
    requires { P.Ready (read-2 f) p.old 8 }
    ensures { P.Done (read-2 f) p.old 8 p.new }
{
    p.number(wire::has_bit(f, 1), 8, Width::W8); // time running
    let on1 = !wire::has_bit(f, 3) & wire::has_bit(f, 2);
    p.number(on1, 9, Width::W8); // id
    let on2 = !wire::has_bit(f, 3) & wire::has_bit(f, 4);
    p.number(on2, 10, Width::W8); // lost count
    p.values(wire::has_bit(f, 3), 11, f); // n times value, id and lost count where selected
}

// 8 READ
fn read<P: Pass>(p: &mut P, f: u64)
    requires { P.Ready (read f) p.old body_words }
    ensures { P.Done (read f) p.old body_words p.new }
{
    read_1(p, f);
    read_2(p, f);
}

// 10 MMAP2, part 1
fn mmap2_1<P: Pass>(p: &mut P)
    requires { P.Ready mmap2-1 p.old body_words }
    ensures { P.Done mmap2-1 p.old body_words p.new }
{
    p.number(true, 3, Width::W4); // pid
    p.number(true, 4, Width::W4); // tid
    p.number(true, 5, Width::W8); // addr
    p.number(true, 6, Width::W8); // len
    p.number(true, 7, Width::W8); // pgoff
}

// 10 MMAP2, part 2
fn mmap2_2<P: Pass>(p: &mut P, misc: u64)
    requires { P.Ready (mmap2-2 misc) p.old 8 }
    ensures { P.Done (mmap2-2 misc) p.old 8 p.new }
{
    p.number(!wire::has_bit(misc, 14), 8, Width::W4); // maj
    p.number(!wire::has_bit(misc, 14), 9, Width::W4); // min
    p.number(!wire::has_bit(misc, 14), 10, Width::W8); // ino
    p.number(!wire::has_bit(misc, 14), 11, Width::W8); // generation
    p.limit(wire::has_bit(misc, 14), 12); // build id size
}

// 10 MMAP2, part 3
fn mmap2_3<P: Pass>(p: &mut P, misc: u64)
    requires { P.Ready (mmap2-3 misc) p.old 13 }
    ensures { P.Done (mmap2-3 misc) p.old 13 p.new }
{
    p.ignored(wire::has_bit(misc, 14), 13, 3); // reserved
    p.listed(wire::has_bit(misc, 14), 13); // build id
    p.number(true, 14, Width::W4); // prot
    p.number(true, 15, Width::W4); // flags
    p.name(true, 16); // name
}

// 10 MMAP2
fn mmap2<P: Pass>(p: &mut P, misc: u64)
    requires { P.Ready (mmap2 misc) p.old body_words }
    ensures { P.Done (mmap2 misc) p.old body_words p.new }
{
    mmap2_1(p);
    mmap2_2(p, misc);
    mmap2_3(p, misc);
}

// 12 ITRACE_START
fn itrace_start<P: Pass>(p: &mut P)
    requires { P.Ready itrace-start p.old body_words }
    ensures { P.Done itrace-start p.old body_words p.new }
{
    p.number(true, 3, Width::W4); // pid
    p.number(true, 4, Width::W4); // tid
}

// 13 LOST_SAMPLES
fn lost_samples<P: Pass>(p: &mut P)
    requires { P.Ready lost-samples p.old body_words }
    ensures { P.Done lost-samples p.old body_words p.new }
{
    p.number(true, 3, Width::W8); // lost
}

// 16 NAMESPACES
fn namespaces<P: Pass>(p: &mut P)
    requires { P.Ready namespaces p.old body_words }
    ensures { P.Done namespaces p.old body_words p.new }
{
    p.number(true, 3, Width::W4); // pid
    p.number(true, 4, Width::W4); // tid
    p.count(true, 5, Width::W8); // n
    p.times(true, 6, 16); // n times dev, inode
}

// 17 KSYMBOL
fn ksymbol<P: Pass>(p: &mut P)
    requires { P.Ready ksymbol p.old body_words }
    ensures { P.Done ksymbol p.old body_words p.new }
{
    p.number(true, 3, Width::W8); // addr
    p.number(true, 4, Width::W4); // len
    p.number(true, 5, Width::W2); // type
    p.number(true, 6, Width::W2); // flags
    p.name(true, 7); // name
}

// 18 BPF_EVENT
fn bpf_event<P: Pass>(p: &mut P)
    requires { P.Ready bpf-event p.old body_words }
    ensures { P.Done bpf-event p.old body_words p.new }
{
    p.number(true, 3, Width::W2); // type
    p.number(true, 4, Width::W2); // flags
    p.number(true, 5, Width::W4); // id
    p.bytes(true, 6); // tag
}

// 19 CGROUP
fn cgroup<P: Pass>(p: &mut P)
    requires { P.Ready cgroup p.old body_words }
    ensures { P.Done cgroup p.old body_words p.new }
{
    p.number(true, 3, Width::W8); // id
    p.name(true, 4); // name
}

// 20 TEXT_POKE
fn text_poke<P: Pass>(p: &mut P)
    requires { P.Ready text-poke p.old body_words }
    ensures { P.Done text-poke p.old body_words p.new }
{
    p.number(true, 3, Width::W8); // addr
    p.count(true, 4, Width::W2); // old length
    p.count(true, 5, Width::W2); // new length
    p.earlier(true, 6); // old text
    p.times(true, 7, 1); // new text
    p.pad(true, 8); // padding
}

// the trailer, part 1
fn trailer_1<P: Pass>(p: &mut P, x: u64)
    requires { P.Ready (trailer-1 x) p.old trail_words }
    ensures { P.Done (trailer-1 x) p.old trail_words p.new }
{
    p.number(wire::has_bit(x, 1), 48, Width::W4); // pid
    p.number(wire::has_bit(x, 1), 49, Width::W4); // tid
    p.number(wire::has_bit(x, 2), 50, Width::W8); // time
    p.number(wire::has_bit(x, 6), 51, Width::W8); // id
}

// the trailer, part 2
fn trailer_2<P: Pass>(p: &mut P, x: u64)
    requires { P.Ready (trailer-2 x) p.old 52 }
    ensures { P.Done (trailer-2 x) p.old 52 p.new }
{
    p.number(wire::has_bit(x, 9), 52, Width::W8); // stream id
    p.number(wire::has_bit(x, 7), 53, Width::W4); // cpu
    p.ignored(wire::has_bit(x, 7), 54, 4); // res
    p.number(wire::has_bit(x, 16), 54, Width::W8); // identifier
}

// the trailer
fn trailer<P: Pass>(p: &mut P, x: u64)
    requires { P.Ready (trailer x) p.old trail_words }
    ensures { P.Done (trailer x) p.old trail_words p.new }
{
    trailer_1(p, x);
    trailer_2(p, x);
}

// The fields of a type; a type that has none, or that document 01 does not have, changes nothing.
pub fn fields<P: Pass>(p: &mut P, kind: u64, misc: u64, a: Attributes)
    requires { P.Ready (schema kind misc a) p.old body_words }
    ensures { P.Done (schema kind misc a) p.old body_words p.new }
{
    let x = a.sample;
    let f = a.format;
    let b = a.branch;
    let user = a.user;
    let interrupt = a.interrupt;
    match Kind::try_from(kind) {
        Ok(Kind::Mmap) => mmap(p),
        Ok(Kind::Lost) => lost(p),
        Ok(Kind::Comm) => comm(p),
        Ok(Kind::Exit | Kind::Fork) => exit(p),
        Ok(Kind::Throttle | Kind::Unthrottle | Kind::Aux) => throttle(p),
        Ok(Kind::Read) => read(p, f),
        Ok(Kind::Sample) => pass_sample::sample(p, x, f, b, user, interrupt),
        Ok(Kind::Mmap2) => mmap2(p, misc),
        Ok(Kind::ItraceStart | Kind::SwitchCpuWide) => itrace_start(p),
        Ok(Kind::LostSamples | Kind::AuxOutputHwId) => lost_samples(p),
        Ok(Kind::Namespaces) => namespaces(p),
        Ok(Kind::Ksymbol) => ksymbol(p),
        Ok(Kind::BpfEvent) => bpf_event(p),
        Ok(Kind::Cgroup) => cgroup(p),
        Ok(Kind::TextPoke) => text_poke(p),
        Ok(Kind::Switch) => {}
        Err(_) => {}
    }
}

// The trailer of a record of this type.
pub fn trail<P: Pass>(p: &mut P, kind: u64, a: Attributes)
    requires { P.Ready (trailer_of kind a) p.old trail_words }
    ensures { P.Done (trailer_of kind a) p.old trail_words p.new }
{
    trailer(p, layouts::trailer_bits(kind, a));
}
