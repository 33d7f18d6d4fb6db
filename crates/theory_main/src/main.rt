// Drives the equality engine and the registry up to each limit by commands that a fixed generator draws. A line for each run: the level
// and the argument pairs in force at its end, and a checksum of all answers so far.
#![tactic(auto)]

ghost use Rattle.std.specs.Prelude.{◌+◌, ◌≤◌, length};
ghost use Rattle.shinri_core.specs.Limits.{max_pairs};
ghost use Rattle.theory.specs.EqEngine.{pairs_in_force};
ghost use Rattle.theory.specs.Memory.Answer.{LeavesSound, answer_size};
ghost use Rattle.theory.specs.Memory.Explaining.{EqualNodes};
ghost use Rattle.theory.specs.Memory.Registry.{RegistrySound};
ghost use Rattle.theory.specs.Memory.Replay.{IsNode};
ghost use Rattle.theory.specs.Memory.Table.{merges, EngineSound, TwoNodes};

use generator::{draw, mix};
use shinri_core::{ids as id, limits as max};
use theory::{atom as at, eq_engine as eq, types as ty};

// A node from n down by at most d.
fn node(seed: u32, k: u32, n: u32, d: u32) -> u32
    ensures { IsNode result }
{
    (n % 1024 + 1024 - draw(seed, k, d) % 1024) % 1024
}

// Merges a and b by a literal, or by an interface leaf with numbers from both ends of what fits.
fn relate(t: &mut [u32], seed: u32, what: u32, a: u32, b: u32) -> u32
    requires { TwoNodes t.old a b }
    ensures { EngineSound t.new }
{
    if what == 0 {
        let l = id::Lit::new(id::Var(seed % 1024 / 2), seed % 2 == 0);
        eq::merge(t, id::TermId(a), id::TermId(b), ty::EqJust::Asserted(l));
        return 0;
    }
    let j = ty::TheoryJust {
        theory: (draw(seed, 9, 2) % 3 * 32767 + seed % 2) as u16,
        tag: draw(seed, 10, 3) % 4 * 1431655765,
    };
    eq::merge(t, id::TermId(a), id::TermId(b), ty::EqJust::Interface(j));
    1
}

// The first node from y down that equals x, or x.
fn twin(t: &[u32], x: u32, y: u32) -> u32
    requires { TwoNodes t.now x y }
    ensures { EqualNodes t.now x result }
{
    for z in (0..y + 1).rev() {
        if eq::are_equal(t, id::TermId(x), id::TermId(z)) {
            return z;
        }
    }
    x
}

// Merges a and b by k argument pairs: two pairs of nodes from n down by at most d that are equal now, again and again.
fn join(t: &mut [u32], seed: u32, a: u32, b: u32, n: u32, d: u32, k: usize)
    requires { TwoNodes t.old a b × (k ≤ 5) × (pairs_in_force (merges t.old) + k ≤ max_pairs) }
    ensures { EngineSound t.new }
{
    let x = node(seed, 11, n, d);
    let y = twin(t, x, node(seed, 12, n, d));
    let z = twin(t, y, node(seed, 13, n, d));
    let xs = [x, y, x, x, y];
    let ys = [y, z, y, y, z];
    eq::merge_congruence(t, id::TermId(a), id::TermId(b), &xs[..k], &ys[..k]);
}

// Merges a and b by what is drawn, past the limit of pairs by a literal.
fn merge(t: &mut [u32], seed: u32, kinds: u32, a: u32, b: u32, n: u32, d: u32) -> u32
    requires { TwoNodes t.old a b }
    ensures { EngineSound t.new }
{
    let what = draw(seed, 6, kinds);
    if what < 2 {
        return relate(t, seed, what, a, b);
    }
    let k = draw(seed, 8, 5) as usize % 6;
    if max::MAX_PAIRS - eq::pairs_in_force(t) < k {
        return relate(t, seed, 0, a, b);
    }
    join(t, seed, a, b, n, d, k);
    2
}

// A level more, where i is a multiple of 16.
fn up(t: &mut [u32], i: u32) -> u32
    requires { EngineSound t.old }
    ensures { EngineSound t.new }
{
    if i % 16 != 0 {
        return 0;
    }
    if eq::level(t) == max::MAX_LEVELS {
        return 9999;
    }
    eq::push(t);
    1
}

// To a level below, at or above the present one.
fn down(t: &mut [u32], seed: u32) -> u32
    requires { EngineSound t.old }
    ensures { EngineSound t.new }
{
    let to = draw(seed, 5, eq::level(t) as u32 + 2);
    eq::pop(t, to as usize);
    to
}

fn ask(t: &[u32], x: u32, y: u32) -> u32
    requires { TwoNodes t.now x y }
{
    let same = eq::are_equal(t, id::TermId(x), id::TermId(y));
    mix(eq::find(t, id::TermId(x)).0, same as u32)
}

fn mix_leaf(sum: u32, l: ty::EqLeaf) -> u32 {
    match l {
        ty::EqLeaf::Asserted(p) => mix(mix(sum, p.var().0), p.is_positive() as u32),
        ty::EqLeaf::Interface(j) => mix(mix(sum, 7 + j.theory as u32), j.tag),
    }
}

fn mix_leaves(out: &[u32]) -> u32
    requires { LeavesSound out.now }
{
    let n = ty::leaf_count(out);
    let mut sum = n as u32;
    for i in 0..n {
        sum = mix_leaf(sum, ty::leaf(out, i));
    }
    sum
}

// A literal and the leaves of two equalities in one list: x and its twin from y down, u and its twin from x down.
fn why(t: &[u32], x: u32, y: u32, u: u32, out: &mut [u32]) -> u32
    requires { TwoNodes t.now x y × IsNode u × (answer_size ≤ length out.old) }
{
    let z = twin(t, x, y);
    let v = twin(t, u, x);
    ty::clear_leaves(out);
    ty::push_leaf(out, ty::EqLeaf::Asserted(id::Lit(2 * u)));
    eq::explain(t, id::TermId(x), id::TermId(z), out);
    eq::explain(t, id::TermId(u), id::TermId(v), out);
    mix_leaves(out)
}

// Registers a variable, or asks for the atom of a registered one, or for the first variable of an atom.
fn enroll(t: &mut [u32], i: u32) -> u32
    requires { RegistrySound t.old }
    ensures { RegistrySound t.new }
{
    let v = draw(i, 14, 1100);
    let x = id::TermId(draw(i, 15, 600) % 1024);
    if at::is_registered(t, id::Var(v)) {
        return at::atom(t, id::Var(v)).0;
    }
    if v < 1024 {
        at::register(t, id::Var(v), x);
        return 9999;
    }
    match at::var_of_atom(t, x) {
        Some(w) => w.0,
        None => 9999,
    }
}

// One command over the nodes up to n.
fn command(t: &mut [u32], i: u32, n: u32, out: &mut [u32]) -> u32
    requires { EngineSound t.old × (answer_size ≤ length out.old) }
    ensures { EngineSound t.new }
{
    let x = node(i, 1, n, n);
    let y = node(i, 2, n, n);
    match draw(i, 3, 15) {
        0 | 1 => up(t, 0),
        2 => down(t, i),
        3 | 4 => ask(t, x, y),
        5 | 6 | 7 => why(t, x, y, node(i, 4, n, n), out),
        _ => merge(t, i, 5, x, y, n, n),
    }
}

// Joins node n and the next one, one way or the other; a level begins at each sixteenth node.
fn link(t: &mut [u32], i: u32, kinds: u32, d: u32) -> u32
    requires { EngineSound t.old }
    ensures { EngineSound t.new }
{
    let n = i % 1023;
    up(t, n);
    if i % 5 < 2 {
        return merge(t, i, kinds, n, n + 1, n, d);
    }
    merge(t, i, kinds, n + 1, n, n, d)
}

// After 1023 steps three nodes are explained. Two runs begin with no merge in force, the next two with what is left. A write that fails is
// let go: the lines are all that the program says.
fn turn<R: Print>(rt: &R, t: &mut [u32], i: u32, sum: u32, out: &mut [u32]) -> u32
    requires { EngineSound t.old × (answer_size ≤ length out.old) }
    ensures { EngineSound t.new }
{
    if i % 1023 != 0 {
        return mix(sum, eq::pairs_in_force(t) as u32);
    }
    let level = eq::level(t);
    let pairs = eq::pairs_in_force(t);
    let s = mix(sum, why(t, 0, 1023, 512, out));
    let _ = println!(rt; "{level} {pairs} {s}");
    if i / 1023 % 4 < 2 {
        eq::clear(t);
    }
    s
}

// Commands over few nodes or over all, and between them a chain, a tower of congruences, or congruences over any nodes.
fn step<R: Print>(rt: &R, t: &mut [u32], i: u32, sum: u32, out: &mut [u32]) -> u32
    requires { EngineSound t.old × (answer_size ≤ length out.old) }
    ensures { EngineSound t.new }
{
    let s = turn(rt, t, i, sum, out);
    match i / 1023 % 12 {
        0 | 4 | 8 => mix(s, command(t, i, 11, out)),
        1 | 7 => mix(s, link(t, i, 0, 0)),
        3 | 9 => mix(s, link(t, i, 63, 5)),
        5 | 11 => mix(s, link(t, i, 15, 1023)),
        _ => mix(s, command(t, i, 1023, out)),
    }
}

fn main(rt: HostRuntime) {
    let mut t = [7u32; 16384];
    let mut out = [7u32; 3324];
    let mut atoms = [7u32; 3073];
    eq::clear(&mut t);
    at::clear(&mut atoms);
    let mut sum = 0;
    for i in 0..24553 {
        sum = mix(sum, enroll(&mut atoms, i));
        sum = step(&rt, &mut t, i, sum, &mut out);
    }
}
