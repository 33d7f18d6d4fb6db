// The questions 5, 6, 8, 13 and 9 of a line (specs/Session.antt), and 11 of a congruence; 4, 7 and 10 are asked where they stand, 11 else
// by what makes.
ghost use Rattle.std.specs.Prelude.{◌≡◌, ◌∷◌, ◌<◌, ltb, length};
ghost use Rattle.shinri_core.specs.Term as Term;
ghost use Rattle.shinri_core.specs.Term.{same_op};
ghost use Rattle.shinri_core.specs.Context.{term};
ghost use Rattle.shinri_core.specs.Memory.Table.{context, ContextSound};
ghost use Rattle.solver.specs.Memory.Table.{SolverSound};
ghost use Rattle.session.specs.Memory.Questions.{all_below, sorts_exist, app_exists, two_exist, var_exists, sorts_agree, one_sort, may_equate, is_equation, equation, disequality, one_op, pairs_equal, congruent, pairs_fit, NamesApp, NamesTwo, NamesLit, NodePairs, PairsNamed};

use shinri_core::context::{
    arity, children, op, param, sort_count, sort_of, symbol_count, term_count,
};
use shinri_core::ids::{Lit, SortId, SymbolId, TermId};
use shinri_core::limits::MAX_PAIRS;
use shinri_core::term::Op;
use solver::records::{atom, is_registered};
use theory::eq_engine::{are_equal, pairs_in_force};

// ---- 5. Does each named sort, symbol, term and literal's variable exist?

fn all_below(xs: &[u32], n: usize) -> bool
    ensures { result ≡ all_below n xs.now }
{
    xs.iter().all(|x| (*x as usize) < n)
}

// A sort, and others.
pub fn sorts_exist(c: &[u32], x: SortId, others: &[u32]) -> bool
    requires { ContextSound c.now }
    ensures { result ≡ sorts_exist c.now x.0 others.now }
{
    let n = sort_count(c);
    (x.0 as usize) < n && all_below(others, n)
}

// A symbol, and terms.
pub fn app_exists(c: &[u32], f: SymbolId, args: &[u32]) -> bool
    requires { ContextSound c.now }
    ensures { result ≡ app_exists c.now f.0 args.now }
{
    (f.0 as usize) < symbol_count(c) && all_below(args, term_count(c))
}

pub fn term_exists(c: &[u32], x: TermId) -> bool
    requires { ContextSound c.now }
    ensures { result ≡ ltb x.0 (length (context c.now).terms) }
{
    (x.0 as usize) < term_count(c)
}

pub fn two_exist(c: &[u32], t: TermId, u: TermId) -> bool
    requires { ContextSound c.now }
    ensures { result ≡ two_exist c.now t.0 u.0 }
{
    term_exists(c, t) && term_exists(c, u)
}

pub fn var_exists(s: &[u32], l: Lit) -> bool
    requires { SolverSound s.now }
    ensures { result ≡ var_exists s.now l.0 }
{
    is_registered(s, l.var())
}

// ---- 6. Do sorts and argument counts agree?

// Are the arguments of the sorts of the symbol's parameters, and as many?
pub fn sorts_agree(c: &[u32], f: SymbolId, args: &[u32]) -> bool
    requires { NamesApp c.now f.0 args.now }
    ensures { result ≡ sorts_agree c.now f.0 args.now }
{
    if arity(c, f) != args.len() {
        return false;
    }
    for (i, x) in args.iter().enumerate() {
        if sort_of(c, TermId(*x)) != param(c, f, i) {
            return false;
        }
    }
    true
}

pub fn one_sort(c: &[u32], t: TermId, u: TermId) -> bool
    requires { NamesTwo c.now t.0 u.0 }
    ensures { result ≡ one_sort c.now t.0 u.0 }
{
    sort_of(c, t) == sort_of(c, u)
}

// Two different terms of one sort?
pub fn may_equate(c: &[u32], t: TermId, u: TermId) -> bool
    requires { NamesTwo c.now t.0 u.0 }
    ensures { result ≡ may_equate c.now t.0 u.0 }
{
    t != u && one_sort(c, t, u)
}

// ---- 8. Is the literal positive and its atom an equation?

fn is_equation(c: &[u32], x: TermId) -> bool
    requires { ContextSound c.now × (x.0 < length (context c.now).terms) }
    ensures { result ≡ is_equation c.now x.0 }
{
    op(c, x) == Op::Eq
}

pub fn equation(c: &[u32], s: &[u32], l: Lit) -> bool
    requires { NamesLit c.now s.now l.0 }
    ensures { result ≡ equation c.now s.now l.0 }
{
    l.is_positive() && is_equation(c, atom(s, l.var()))
}

// ---- 13. Is the literal negative and its atom an equation?

pub fn disequality(c: &[u32], s: &[u32], l: Lit) -> bool
    requires { NamesLit c.now s.now l.0 }
    ensures { result ≡ disequality c.now s.now l.0 }
{
    !l.is_positive() && is_equation(c, atom(s, l.var()))
}

// ---- 9. Same operation, and each argument pair equal now?

fn same_op(c: &[u32], t: TermId, u: TermId) -> bool
    requires { NamesTwo c.now t.0 u.0 }
    ensures { result ≡ one_op c.now t.0 u.0 }
{
    op(c, t) == op(c, u)
}

fn pairs_equal(e: &[u32], xs: &[u32], ys: &[u32]) -> bool
    requires { NodePairs e.now xs.now ys.now }
    ensures { result ≡ pairs_equal e.now xs.now ys.now }
{
    for (x, y) in xs.iter().zip(ys) {
        if !are_equal(e, TermId(*x), TermId(*y)) {
            return false;
        }
    }
    true
}

pub fn congruent(c: &[u32], e: &[u32], t: TermId, u: TermId) -> bool
    requires { PairsNamed c.now e.now t.0 u.0 }
    ensures { result ≡ congruent c.now e.now t.0 u.0 }
{
    same_op(c, t, u) && pairs_equal(e, children(c, t), children(c, u))
}

// ---- 11. Do the pairs of a congruence fit?

pub fn pairs_fit(e: &[u32], t: TermId, u: TermId, xs: &[u32], ys: &[u32]) -> bool
    requires { NodePairs e.now (t.0 ∷ xs.now) (u.0 ∷ ys.now) }
    ensures { result ≡ pairs_fit e.now t.0 u.0 xs.now ys.now }
{
    are_equal(e, t, u) || xs.len() <= MAX_PAIRS - pairs_in_force(e)
}
