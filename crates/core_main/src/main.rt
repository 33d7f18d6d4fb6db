// Drives a context up to each limit by commands that a fixed generator draws. A line for each 400 commands: how many sorts, symbols,
// terms and argument places there are then, and a checksum of all answers so far.
#![tactic(auto)]

ghost use Rattle.std.specs.Prelude.{◌<◌, length};
ghost use Rattle.shinri_core.specs.Memory.Table.{ContextSound, context, MayApply, MayDeclare};

use generator::{draw, mix};
use shinri_core::{context as cx, ids as id, limits as lm, term as tm};

fn declared(d: Result<(), lm::NoRoom>) -> u32 {
    match d {
        Ok(()) => 1,
        Err(lm::NoRoom) => 2,
    }
}

fn made(m: Result<id::TermId, lm::NoRoom>) -> u32 {
    match m {
        Ok(x) => x.0,
        Err(lm::NoRoom) => 9999,
    }
}

fn element(xs: &[u32], k: usize) -> u32 {
    xs.get(k).copied().unwrap_or(9999)
}

fn ask_symbol(t: &[u32], f: id::SymbolId, k: usize) -> u32
    requires { ContextSound t.now × (f.0 < length (context t.now).symbols) }
{
    if k < cx::arity(t, f) {
        return mix(cx::param(t, f, k).0, cx::result_sort(t, f).0);
    }
    match cx::dt_role(t, f) {
        tm::DtRole::Constructor => mix(cx::dt_tester(f).0, cx::first_selector(f).0),
        tm::DtRole::Tester(c) => mix(2, c.0),
        tm::DtRole::Selector(c, i) => mix(mix(3, c.0), i),
        tm::DtRole::Function => 0,
    }
}

fn ask_sort(t: &[u32], s: id::SortId, from: usize) -> u32
    requires { ContextSound t.now × (s.0 < length (context t.now).sorts) × (from < length (context t.now).symbols) }
{
    let a = cx::is_datatype_sort(t, s) as u32;
    let b = cx::all_grounded(t) as u32;
    let c = match cx::next_constructor(t, s, from) {
        Some(c) => c.0,
        None => cx::symbol_count(t) as u32,
    };
    mix(mix(a, b), c)
}

fn ask_term(t: &[u32], x: id::TermId, k: usize) -> u32
    requires { ContextSound t.now × (x.0 < length (context t.now).terms) }
{
    let a = mix(cx::sort_of(t, x).0, element(cx::children(t, x), k));
    match cx::op(t, x) {
        tm::Op::Eq => a,
        tm::Op::Uninterpreted(f) => mix(mix(a, 1), f.0),
    }
}

// Gives a few terms back.
fn cut(t: &mut [u32], x: u32) -> u32
    requires { ContextSound t.old × (x < length (context t.old).terms) }
    ensures { ContextSound t.new }
{
    let n = cx::term_count(t) - x as usize / 256;
    cx::truncate(t, n);
    n as u32
}

// One of the commands over a symbol, a sort, a term, fields and arguments. Later ones are more often terms over the arguments.
fn change(t: &mut [u32], i: u32, f: u32, s: u32, x: u32, fs: &[u32; 16], xs: &[u32; 7]) -> u32
    requires { MayDeclare t.old s fs.now × MayApply t.old f xs.now × (x < length (context t.old).terms) }
    ensures { ContextSound t.new }
{
    match draw(i, 4, 13 + i / 3000) {
        0 | 1 | 2 => declared(cx::dt_add_constructor(t, id::SortId(s), &[])),
        3 => declared(cx::dt_add_constructor(t, id::SortId(s), fs)),
        4 => declared(cx::declare_fun(t, id::SortId(s), fs)),
        5 => ask_sort(t, id::SortId(s), f as usize),
        6 => ask_symbol(t, id::SymbolId(f), x as usize % 17),
        7 | 8 => ask_term(t, id::TermId(x), f as usize % 8),
        9 => cut(t, x),
        10 => made(cx::mk_eq(t, id::TermId(x), id::TermId(x / 2))),
        11 => made(cx::mk_eq(t, id::TermId(x), id::TermId(0))),
        12 => made(cx::mk_eq(t, id::TermId(0), id::TermId(x))),
        13 => made(cx::mk_eq(t, id::TermId(x / 7), id::TermId(x))),
        14 => made(cx::mk_app(t, id::SymbolId(f / 64), xs)),
        _ => made(cx::mk_app(t, id::SymbolId(f), xs)),
    }
}

// Two sorts, 16 times, are the fields, and two terms the arguments.
fn with_lists(t: &mut [u32], i: u32, f: u32, s: u32, x: u32) -> u32
    requires { ContextSound t.old × (f < length (context t.old).symbols) × (s < length (context t.old).sorts)
        × (x < length (context t.old).terms) }
    ensures { ContextSound t.new }
{
    let r = s / 2;
    let y = x / 2;
    let fs = [s, r, s, s, r, r, r, s, s, r, s, r, r, s, r, s];
    change(t, i, f, s, x, &fs, &[x, y, x, x, y, y, y])
}

fn over(t: &mut [u32], i: u32, f: u32, s: u32) -> u32
    requires { ContextSound t.old × (f < length (context t.old).symbols) × (s < length (context t.old).sorts) }
    ensures { ContextSound t.new }
{
    let n = cx::term_count(t) as u32;
    let x = draw(i, 3, n);
    if n <= x {
        return made(cx::mk_app(t, id::SymbolId(f), &[]));
    }
    with_lists(t, i, f, s, x)
}

// Draws a symbol, a sort and a term. The number past the last one stands for a new one.
fn command(t: &mut [u32], i: u32) -> u32
    requires { ContextSound t.old }
    ensures { ContextSound t.new }
{
    let m = cx::symbol_count(t) as u32;
    let f = draw(i, 1, m);
    if m <= f {
        return declared(cx::declare_fun(t, id::SortId(0), &[]));
    }
    let l = cx::sort_count(t) as u32;
    let s = draw(i, 2, l);
    if l <= s {
        return declared(cx::declare_sort(t, i % 4 == 0));
    }
    over(t, i, f, s)
}

// A run of 400 commands ends with a line, and the first runs of each half with an empty table. A write that fails is let go: the lines are
// all that the program says.
fn step<R: Print>(rt: &R, t: &mut [u32], i: u32, sum: u32) -> u32
    requires { ContextSound t.old }
    ensures { ContextSound t.new }
{
    if i % 400 != 0 {
        return mix(sum, command(t, i));
    }
    let sorts = cx::sort_count(t);
    let symbols = cx::symbol_count(t);
    let terms = cx::term_count(t);
    let places = cx::place_count(t);
    let _ = println!(rt; "{sorts} {symbols} {terms} {places} {sum}");
    if i % 12000 < 2400 {
        cx::clear(t);
    }
    sum
}

fn main(rt: HostRuntime) {
    let mut t = [7u32; 16384];
    cx::clear(&mut t);
    let mut sum = 0;
    for i in 1..24001 {
        sum = step(&rt, &mut t, i, sum);
    }
}
