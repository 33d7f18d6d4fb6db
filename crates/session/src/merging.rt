// The lines that merge classes: `equate`, `cong`, `iface`.
ghost use Rattle.solver.specs.Memory.Table.{StateSound};
ghost use Rattle.session.specs.Line as Line;
ghost use Rattle.session.specs.Memory.Sessions.{Merging, Equating, MergesSides, AnswersEquate, AnswersEngine};

use crate::answer::{Answer, Refusal};
use crate::questions::{congruent, equation, one_sort, pairs_fit, two_exist, var_exists};
use shinri_core::context::children;
use shinri_core::ids::{Lit, TermId};
use solver::records::atom;
use theory::eq_engine::{merge, merge_congruence};
use theory::types::{EqJust, TheoryJust};

// The sides of a literal's equation are joined under it.
fn merge_sides(c: &[u32], e: &mut [u32], s: &[u32], l: Lit)
    requires { Equating c.now e.old s.now l.0 }
    ensures { MergesSides c.now e.old s.now l.0 e.new }
{
    let sides = children(c, atom(s, l.var()));
    merge(e, TermId(sides[0]), TermId(sides[1]), EqJust::Asserted(l));
}

pub fn equate_line(
    c: &[u32],
    e: &mut [u32],
    s: &[u32],
    closed: bool,
    l: Lit,
) -> Result<Answer, Refusal>
    requires { StateSound c.now e.old s.now }
    ensures { AnswersEquate closed (Line.Equate l.0) c.now e.old s.now result e.new }
{
    if !closed {
        return Err(Refusal::Misplaced);
    }
    if !var_exists(s, l) {
        return Err(Refusal::Missing);
    }
    if !equation(c, s, l) {
        return Err(Refusal::NotEquation);
    }
    merge_sides(c, e, s, l);
    Ok(Answer::Ok)
}

pub fn cong_line(
    c: &[u32],
    e: &mut [u32],
    closed: bool,
    t: TermId,
    u: TermId,
) -> Result<Answer, Refusal>
    requires { Merging c.now e.old }
    ensures { AnswersEngine closed (Line.Cong t.0 u.0) c.now e.old result e.new }
{
    if !closed {
        return Err(Refusal::Misplaced);
    }
    if !two_exist(c, t, u) {
        return Err(Refusal::Missing);
    }
    if !congruent(c, e, t, u) {
        return Err(Refusal::NotCongruent);
    }
    let xs = children(c, t);
    let ys = children(c, u);
    if !pairs_fit(e, t, u, xs, ys) {
        return Err(Refusal::NoRoom);
    }
    merge_congruence(e, t, u, xs, ys);
    Ok(Answer::Ok)
}

pub fn iface_line(
    c: &[u32],
    e: &mut [u32],
    closed: bool,
    t: TermId,
    u: TermId,
    j: TheoryJust,
) -> Result<Answer, Refusal>
    requires { Merging c.now e.old }
    ensures { AnswersEngine closed (Line.Iface t.0 u.0 j.theory j.tag) c.now e.old result
        e.new }
{
    if !closed {
        return Err(Refusal::Misplaced);
    }
    if !two_exist(c, t, u) {
        return Err(Refusal::Missing);
    }
    if !one_sort(c, t, u) {
        return Err(Refusal::Disagreeing);
    }
    merge(e, t, u, EqJust::Interface(j));
    Ok(Answer::Ok)
}
