// Guarded instantiation: where a tester was asserted and its term's class has no marked constructor application, the term is equated
// with the constructor over its selectors.
ghost use Rattle.std.specs.Prelude.{◌≤◌, length};
ghost use Rattle.theory.specs.Memory.Answer.{answer_size};
ghost use Rattle.solver.specs.Rules.{instantiate_constructor};
ghost use Rattle.solver.specs.Memory.Work.{CheckSound};
ghost use Rattle.solver.specs.Memory.Answer.{Tried};
ghost use Rattle.solver.specs.Memory.Instantiation.{instantiation, instantiate_term, instantiate_flagged, Coverable, Covers, Guardable, Guards, Instantiable, TermAsked};

use crate::answer::TCheck;
use crate::layout::{LASTING, REGISTRY_SIZE};
use crate::make::{hand_out, mint};
use crate::work::ctor_of_class;
use shinri_core::context::{arity, children, dt_role, mk_eq, op, term_count};
use shinri_core::ids::{Lit, SymbolId, TermId};
use shinri_core::limits::NoRoom;
use shinri_core::table::get_at;
use shinri_core::term::{DtRole, Op};
use theory::atom::var_of_atom;

// The selectors of a constructor are made on a term and marked, in order, then the constructor over them.
fn mint_over(
    t: &mut [u32],
    e: &[u32],
    w: &mut [u32],
    a: TermId,
    f: SymbolId,
) -> Result<TermId, NoRoom>
    requires { Coverable t.old e.now w.old a.0 f.0 }
    ensures { Covers t.old e.now w.old a.0 f.0 result t.new w.new }
{
    let n = arity(t, f);
    let mut ids = [0u32; 16];
    for i in 0..n {
        let args = [a.0];
        let y = mint(t, e, w, SymbolId(f.0 + 2 + i as u32), &args)?;
        ids[i] = y.0;
    }
    mint(t, e, w, f, &ids[..n])
}

// The lemma y under the negation of x, if x is the atom of a variable.
fn guard(s: &mut [u32], x: TermId, y: TermId, out: &mut [u32]) -> TCheck
    requires { Guardable s.old x.0 y.0 out.old }
    ensures { Guards s.old x.0 y.0 result s.new out.new }
{
    match var_of_atom(&s[..REGISTRY_SIZE], x) {
        None => TCheck::Sat,
        Some(v) => hand_out(s, y, Some(Lit::new(v, true).negate()), out),
    }
}

// Term a is equated with constructor f over its selectors on a, guarded by the tester x.
fn instantiate(
    t: &mut [u32],
    e: &[u32],
    s: &mut [u32],
    w: &mut [u32],
    x: TermId,
    f: SymbolId,
    a: TermId,
    out: &mut [u32],
) -> Result<TCheck, NoRoom>
    requires { Instantiable t.old e.now s.old w.old x.0 f.0 a.0 out.old }
    ensures { Tried (instantiation x.0 f.0 a.0) t.old e.now s.old w.old
        result t.new s.new w.new out.new }
{
    let app = mint_over(t, e, w, a, f)?;
    let y = mk_eq(t, a, app)?;
    Ok(guard(s, x, y, out))
}

// A term, if it is a tester application whose argument's class has no marked constructor application.
fn instantiate_at(
    t: &mut [u32],
    e: &[u32],
    s: &mut [u32],
    w: &mut [u32],
    x: TermId,
    out: &mut [u32],
) -> Result<TCheck, NoRoom>
    requires { TermAsked t.old e.now s.old w.old x.0 out.old }
    ensures { Tried (instantiate_term x.0) t.old e.now s.old w.old
        result t.new s.new w.new out.new }
{
    let Op::Uninterpreted(g) = op(t, x) else {
        return Ok(TCheck::Sat);
    };
    let DtRole::Tester(f) = dt_role(t, g) else {
        return Ok(TCheck::Sat);
    };
    let a = TermId(children(t, x)[0]);
    if ctor_of_class(t, e, w, a).is_some() {
        return Ok(TCheck::Sat);
    }
    instantiate(t, e, s, w, x, f, a, out)
}

// A term, if it stands in the lasting record.
fn instantiate_lasting(
    t: &mut [u32],
    e: &[u32],
    s: &mut [u32],
    w: &mut [u32],
    x: usize,
    out: &mut [u32],
) -> Result<TCheck, NoRoom>
    requires { TermAsked t.old e.now s.old w.old x out.old }
    ensures { Tried (instantiate_flagged s.old x) t.old e.now s.old w.old
        result t.new s.new w.new out.new }
{
    if get_at(s, LASTING, x) == 0 {
        return Ok(TCheck::Sat);
    }
    instantiate_at(t, e, s, w, TermId(x as u32), out)
}

// By atom of the lasting record, ascending.
pub fn instantiate_constructor(
    t: &mut [u32],
    e: &[u32],
    s: &mut [u32],
    w: &mut [u32],
    out: &mut [u32],
) -> Result<TCheck, NoRoom>
    requires { CheckSound t.old e.now s.old w.old × (answer_size ≤ length out.old) }
    ensures { Tried instantiate_constructor t.old e.now s.old w.old
        result t.new s.new w.new out.new }
{
    for x in 0..term_count(t) {
        let r = instantiate_lasting(t, e, s, w, x, out)?;
        if r != TCheck::Sat {
            return Ok(r);
        }
    }
    Ok(TCheck::Sat)
}
