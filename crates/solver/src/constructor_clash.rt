// Constructor clash: two marked applications of different constructors in one class.
ghost use Rattle.std.specs.Prelude.{◌≡◌, ◌<◌, length, Ok};
ghost use Rattle.shinri_core.specs.Memory.Table.{context, ContextSound};
ghost use Rattle.solver.specs.Rules.{constructor_clash};
ghost use Rattle.solver.specs.Memory.Answer.{Tried};
ghost use Rattle.solver.specs.Memory.ConstructorClash.{symbol_of, ClassWalked, ClashAsked, ClashAt, ClashReady};

use crate::answer::TCheck;
use crate::layout::Kind;
use crate::work::{W_MARK, lowest_of_class, next_of_class};
use shinri_core::context::{op, term_count};
use shinri_core::ids::TermId;
use shinri_core::table::get_at;
use shinri_core::term::Op;
use theory::eq_engine::explain;
use theory::types::clear_leaves;

// The symbol that a term applies; of an equation 0, which nobody asks for: who asks knows by a mark that the term is an application.
pub fn symbol_of(t: &[u32], x: usize) -> usize
    requires { ContextSound t.now × (x < length (context t.now).terms) }
    ensures { result ≡ symbol_of (context t.now) x }
{
    match op(t, TermId(x as u32)) {
        Op::Eq => 0,
        Op::Uninterpreted(f) => f.0 as usize,
    }
}

// The first application behind p, in its class, that has another constructor.
fn other_constructor(t: &[u32], e: &[u32], w: &[u32], p: usize) -> Option<TermId>
    requires { ClassWalked t.now e.now w.now p }
    ensures { ClashAt t.now e.now w.now p result }
{
    let f = symbol_of(t, p);
    let mut next = next_of_class(w, TermId(p as u32));
    while let Some(q) = next {
        if symbol_of(t, q.0 as usize) != f {
            return Some(q);
        }
        next = next_of_class(w, q);
    }
    None
}

// The same for any term p below which no application clashes. Only the lowest application of a class has to be asked: if l is the lowest
// and neither (l, p) nor (l, q) clashes, then (p, q) does not.
fn clash_at(t: &[u32], e: &[u32], w: &[u32], p: usize) -> Option<TermId>
    requires { ClashAsked t.now e.now w.now p }
    ensures { ClashAt t.now e.now w.now p result }
{
    if get_at(w, W_MARK, p) != Kind::CtorApp as usize {
        return None;
    }
    let x = TermId(p as u32);
    if lowest_of_class(t, e, w, x) != Some(x) {
        return None;
    }
    other_constructor(t, e, w, p)
}

// The first pair, by the lower and then the higher number; the lower one is explained to the higher one.
pub fn constructor_clash(t: &[u32], e: &[u32], s: &[u32], w: &[u32], out: &mut [u32]) -> TCheck
    requires { ClashReady t.now e.now s.now w.now out.old }
    ensures { Tried constructor_clash t.now e.now s.now w.now (Ok result) t.now
        s.now w.now out.new }
{
    for p in 0..term_count(t) {
        if let Some(q) = clash_at(t, e, w, p) {
            clear_leaves(out);
            explain(e, TermId(p as u32), q, out);
            return TCheck::Conflict;
        }
    }
    TCheck::Sat
}
