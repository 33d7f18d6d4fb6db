// Testers against the constructor of their term's class: tester clash, and negative testers.
ghost use Rattle.std.specs.Prelude.{◌≡◌, true, false, ◌≤◌, ◌<◌, length, Ok};
ghost use Rattle.theory.specs.Memory.Answer.{answer_size};
ghost use Rattle.solver.specs.Rules.{tester_clash, negative_clash};
ghost use Rattle.solver.specs.Memory.Table.{of_sign, key_atom};
ghost use Rattle.solver.specs.Memory.Work.{CtorAsked, CheckSound};
ghost use Rattle.solver.specs.Memory.Answer.{Tried};
ghost use Rattle.solver.specs.Memory.Testing.{clash_by, Lone, own_at, OwnAsked, OwnApp, TesterTerm, TesterCtor, DisagreeAsked, Disagrees, TesterAsked, ConflictAsked, TesterConflict, EntryAsked, EntryConflict, ClashAsked};

use crate::answer::TCheck;
use crate::constructor_clash::symbol_of;
use crate::layout::{COUNTS, ENTRY, Kind, MAX_LITS, RECORDS, UNEQUAL};
use crate::work::{W_MARK, ctor_of_class};
use shinri_core::context::{children, dt_role, op, term_count};
use shinri_core::ids::{Lit, SymbolId, TermId};
use shinri_core::limits::MAX_TERMS;
use shinri_core::table::get_at;
use shinri_core::term::{DtRole, Op};
use theory::eq_engine::{explain, find};
use theory::types::{EqLeaf, clear_leaves, push_leaf};

// ---- a tester against a class

// The literal says that the term is built by the constructor c, or that it is not; found is an application of its class. The leaves are
// the literal, then those of the term's equality with that application.
fn disagrees(
    e: &[u32],
    l: Lit,
    positive: bool,
    c: SymbolId,
    arg: TermId,
    found: Option<(SymbolId, TermId)>,
    out: &mut [u32],
) -> TCheck
    requires { DisagreeAsked e.now arg.0 found out.old }
    ensures { Disagrees positive e.now l.0 c.0 arg.0 found result out.new }
{
    let Some((f, app)) = found else {
        return TCheck::Sat;
    };
    if (f == c) == positive {
        return TCheck::Sat;
    }
    clear_leaves(out);
    push_leaf(out, EqLeaf::Asserted(l));
    explain(e, arg, app, out);
    TCheck::Conflict
}

// The constructor that a tester application asks for. No other term is given, so the other arms are never taken.
fn tester_ctor(t: &[u32], x: TermId) -> SymbolId
    requires { TesterTerm t.now x.0 }
    ensures { TesterCtor t.now x.0 result.0 }
{
    match op(t, x) {
        Op::Eq => SymbolId(0),
        Op::Uninterpreted(f) => match dt_role(t, f) {
            DtRole::Tester(c) => c,
            _ => f,
        },
    }
}

// The conflict of a tester with the lowest marked constructor application of its term's class, or `Sat`. A negative one is compared so
// only where a class has one constructor.
pub fn tester_conflict(
    t: &[u32],
    e: &[u32],
    w: &[u32],
    l: Lit,
    positive: bool,
    x: TermId,
    out: &mut [u32],
) -> TCheck
    requires { ConflictAsked positive t.now e.now w.now x.0 out.old }
    ensures { TesterConflict positive t.now e.now w.now l.0 x.0 result out.new }
{
    let arg = TermId(children(t, x)[0]);
    let found = ctor_of_class(t, e, w, arg);
    let c = tester_ctor(t, x);
    disagrees(e, l, positive, c, arg, found, out)
}

// ---- a negative tester against any class

// Is a term marked as an application of constructor c, in the class of a root?
fn is_own(t: &[u32], e: &[u32], w: &[u32], c: SymbolId, root: TermId, i: usize) -> bool
    requires { OwnAsked t.now e.now w.now i }
    ensures { result ≡ own_at t.now e.now w.now c.0 root.0 i }
{
    get_at(w, W_MARK, i) == Kind::CtorApp as usize
        && symbol_of(t, i) == c.0 as usize
        && find(e, TermId(i as u32)) == root
}

// The lowest marked application of constructor c in a term's class, if any, by a pass over the terms.
fn search_own(t: &[u32], e: &[u32], w: &[u32], x: TermId, c: SymbolId) -> Option<(SymbolId, TermId)>
    requires { CtorAsked t.now e.now w.now x.0 }
    ensures { OwnApp t.now e.now w.now x.0 c.0 result }
{
    let root = find(e, x);
    for i in 0..term_count(t) {
        if is_own(t, e, w, c, root, i) {
            return Some((c, TermId(i as u32)));
        }
    }
    None
}

// The same. Only a class whose lowest application is of another constructor, and so is in a clash if it has one of c, takes a search.
fn own_app(t: &[u32], e: &[u32], w: &[u32], x: TermId, c: SymbolId) -> Option<(SymbolId, TermId)>
    requires { CtorAsked t.now e.now w.now x.0 }
    ensures { OwnApp t.now e.now w.now x.0 c.0 result }
{
    let (f, app) = ctor_of_class(t, e, w, x)?;
    if f == c {
        return Some((f, app));
    }
    search_own(t, e, w, x, c)
}

// The conflict of a negative tester with the lowest marked application of its own constructor, or `Sat`.
pub fn negative_conflict(
    t: &[u32],
    e: &[u32],
    w: &[u32],
    l: Lit,
    x: TermId,
    out: &mut [u32],
) -> TCheck
    requires { TesterAsked t.now e.now w.now x.0 out.old }
    ensures { TesterConflict false t.now e.now w.now l.0 x.0 result out.new }
{
    let arg = TermId(children(t, x)[0]);
    let c = tester_ctor(t, x);
    let found = own_app(t, e, w, arg, c);
    disagrees(e, l, false, c, arg, found, out)
}

// ---- the records

// Is a key one of a tester of that sign?
fn of_sign(key: usize, positive: bool) -> bool
    ensures { result ≡ of_sign positive key }
{
    if positive {
        return key < MAX_TERMS;
    }
    MAX_TERMS <= key && key < UNEQUAL
}

// The atom of a tester's key.
fn key_atom(key: usize) -> usize
    ensures { result ≡ key_atom key }
{
    if key < MAX_TERMS {
        return key;
    }
    key - MAX_TERMS
}

// The conflict of an entry, if its tester is of that sign, or `Sat`.
fn entry_conflict(
    t: &[u32],
    e: &[u32],
    s: &[u32],
    w: &[u32],
    positive: bool,
    i: usize,
    out: &mut [u32],
) -> TCheck
    requires { EntryAsked positive t.now e.now s.now w.now i out.old }
    ensures { EntryConflict positive t.now e.now s.now w.now i result out.new }
{
    let word = get_at(s, ENTRY, i);
    let key = word / MAX_LITS;
    if !of_sign(key, positive) {
        return TCheck::Sat;
    }
    let l = Lit((word % MAX_LITS) as u32);
    let x = TermId(key_atom(key) as u32);
    tester_conflict(t, e, w, l, positive, x, out)
}

// The first entry of a record that has a conflict. The record of unequal terms has such a loop of its own: a closure that asks an entry
// and writes the answer table would be longer than the loop.
fn record_clash(
    t: &[u32],
    e: &[u32],
    s: &[u32],
    w: &[u32],
    positive: bool,
    out: &mut [u32],
) -> TCheck
    requires { ClashAsked positive t.now e.now s.now w.now out.old }
    ensures { Tried (clash_by positive) t.now e.now s.now w.now (Ok result) t.now s.now w.now out.new }
{
    for i in 0..get_at(s, COUNTS, RECORDS) {
        let r = entry_conflict(t, e, s, w, positive, i, out);
        if r != TCheck::Sat {
            return r;
        }
    }
    TCheck::Sat
}

// The first entry of the level record that has a conflict.
pub fn tester_clash(t: &[u32], e: &[u32], s: &[u32], w: &[u32], out: &mut [u32]) -> TCheck
    requires { CheckSound t.now e.now s.now w.now × (answer_size ≤ length out.old) }
    ensures { Tried tester_clash t.now e.now s.now w.now (Ok result) t.now s.now w.now out.new }
{
    record_clash(t, e, s, w, true, out)
}

// The first negative tester that has a conflict, where a class has one constructor.
pub fn negative_clash(t: &[u32], e: &[u32], s: &[u32], w: &[u32], out: &mut [u32]) -> TCheck
    requires { CheckSound t.now e.now s.now w.now × Lone t.now e.now w.now × (answer_size ≤ length out.old) }
    ensures { Tried negative_clash t.now e.now s.now w.now (Ok result) t.now s.now w.now out.new }
{
    record_clash(t, e, s, w, false, out)
}
