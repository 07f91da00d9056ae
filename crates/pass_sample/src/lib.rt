// A pass over SAMPLE's fields: a call for each item, in the order of the schema.
// Written by tools/chains.py from the rows of crate table.
#![tactic(auto)]

ghost use Rattle.meaning.specs.Values.{body_words};
ghost use Rattle.layouts.specs.Lists.{sample-1, sample-2, sample-3, sample-4, sample-5, sample-6, sample-7, sample};

use meaning::Width;
use pass::Pass;

// 9 SAMPLE, part 1
fn sample_1<P: Pass>(p: &mut P, x: u64)
    requires { P.Ready (sample-1 x) p.old body_words }
    ensures { P.Done (sample-1 x) p.old body_words p.new }
{
    p.number(wire::has_bit(x, 16), 3, Width::W8); // identifier
    p.number(wire::has_bit(x, 0), 4, Width::W8); // ip
    p.number(wire::has_bit(x, 1), 5, Width::W4); // pid
    p.number(wire::has_bit(x, 1), 6, Width::W4); // tid
    p.number(wire::has_bit(x, 2), 7, Width::W8); // time
    p.number(wire::has_bit(x, 3), 8, Width::W8); // addr
}

// 9 SAMPLE, part 2
fn sample_2<P: Pass>(p: &mut P, x: u64, f: u64)
    requires { P.Ready (sample-2 x f) p.old 9 }
    ensures { P.Done (sample-2 x f) p.old 9 p.new }
{
    p.number(wire::has_bit(x, 6), 9, Width::W8); // id
    p.number(wire::has_bit(x, 9), 10, Width::W8); // stream id
    p.number(wire::has_bit(x, 7), 11, Width::W4); // cpu
    p.ignored(wire::has_bit(x, 7), 12, 4); // res
    p.number(wire::has_bit(x, 8), 12, Width::W8); // period
    let on5 = wire::has_bit(x, 4) & !wire::has_bit(f, 3);
    p.number(on5, 13, Width::W8); // value
}

// 9 SAMPLE, part 3
fn sample_3<P: Pass>(p: &mut P, x: u64, f: u64)
    requires { P.Ready (sample-3 x f) p.old 14 }
    ensures { P.Done (sample-3 x f) p.old 14 p.new }
{
    let on0 = wire::has_bit(x, 4) & wire::has_bit(f, 3);
    p.count(on0, 14, Width::W8); // n
    let on1 = wire::has_bit(x, 4) & wire::has_bit(f, 0);
    p.number(on1, 15, Width::W8); // time enabled
    let on2 = wire::has_bit(x, 4) & wire::has_bit(f, 1);
    p.number(on2, 16, Width::W8); // time running
    let on3 = wire::has_bit(x, 4) & (!wire::has_bit(f, 3) & wire::has_bit(f, 2));
    p.number(on3, 17, Width::W8); // id
    let on4 = wire::has_bit(x, 4) & (!wire::has_bit(f, 3) & wire::has_bit(f, 4));
    p.number(on4, 18, Width::W8); // lost count
    let on5 = wire::has_bit(x, 4) & wire::has_bit(f, 3);
    p.values(on5, 19, f); // n times value, id and lost count where selected
}

// 9 SAMPLE, part 4
fn sample_4<P: Pass>(p: &mut P, x: u64, b: u64)
    requires { P.Ready (sample-4 x b) p.old 20 }
    ensures { P.Done (sample-4 x b) p.old 20 p.new }
{
    p.count(wire::has_bit(x, 5), 20, Width::W8); // callchain: n
    p.times(wire::has_bit(x, 5), 21, 8); // n words
    p.size(wire::has_bit(x, 10), 22, Width::W4); // raw: size
    p.times(wire::has_bit(x, 10), 23, 1); // bytes
    p.count(wire::has_bit(x, 11), 24, Width::W8); // branches: n
    let on5 = wire::has_bit(x, 11) & wire::has_bit(b, 17);
    p.number(on5, 25, Width::W8); // hardware index
}

// 9 SAMPLE, part 5
fn sample_5<P: Pass>(p: &mut P, x: u64, user: u64)
    requires { P.Ready (sample-5 x user) p.old 26 }
    ensures { P.Done (sample-5 x user) p.old 26 p.new }
{
    p.times(wire::has_bit(x, 11), 26, 24); // n entries
    p.abi(wire::has_bit(x, 12), 27, user); // user registers: abi
    p.registers(wire::has_bit(x, 12), 28); // registers
    p.size(wire::has_bit(x, 13), 30, Width::W8); // user stack: size
    p.times(wire::has_bit(x, 13), 31, 1); // bytes
    p.filled(wire::has_bit(x, 13), 32); // filled length
}

// 9 SAMPLE, part 6
fn sample_6<P: Pass>(p: &mut P, x: u64, interrupt: u64)
    requires { P.Ready (sample-6 x interrupt) p.old 33 }
    ensures { P.Done (sample-6 x interrupt) p.old 33 p.new }
{
    let on0 = wire::has_bit(x, 14) | wire::has_bit(x, 24);
    p.number(on0, 33, Width::W8); // weight
    p.number(wire::has_bit(x, 15), 34, Width::W8); // data source
    p.number(wire::has_bit(x, 17), 35, Width::W8); // transaction
    p.abi(wire::has_bit(x, 18), 36, interrupt); // interrupt registers: abi
    p.registers(wire::has_bit(x, 18), 37); // registers
    p.number(wire::has_bit(x, 19), 39, Width::W8); // physical address
}

// 9 SAMPLE, part 7
fn sample_7<P: Pass>(p: &mut P, x: u64)
    requires { P.Ready (sample-7 x) p.old 40 }
    ensures { P.Done (sample-7 x) p.old 40 p.new }
{
    p.number(wire::has_bit(x, 21), 40, Width::W8); // cgroup
    p.number(wire::has_bit(x, 22), 41, Width::W8); // data page size
    p.number(wire::has_bit(x, 23), 42, Width::W8); // code page size
    p.size(wire::has_bit(x, 20), 43, Width::W8); // aux: size
    p.times(wire::has_bit(x, 20), 44, 1); // bytes
}

// 9 SAMPLE
pub fn sample<P: Pass>(p: &mut P, x: u64, f: u64, b: u64, user: u64, interrupt: u64)
    requires { P.Ready (sample x f b user interrupt) p.old body_words }
    ensures { P.Done (sample x f b user interrupt) p.old body_words p.new }
{
    sample_1(p, x);
    sample_2(p, x, f);
    sample_3(p, x, f);
    sample_4(p, x, b);
    sample_5(p, x, user);
    sample_6(p, x, interrupt);
    sample_7(p, x);
}
