// The lines of the solver: `var`, `assert`, `differ`, `check`.
ghost use Rattle.std.specs.Prelude.{◌≡◌, ◌≤◌, length, Ok};
ghost use Rattle.shinri_core.specs.Memory.Table.{ContextSound};
ghost use Rattle.theory.specs.Memory.Answer.{answer_size};
ghost use Rattle.solver.specs.Memory.Table.{StateSound};
ghost use Rattle.session.specs.Line as Line;
ghost use Rattle.session.specs.Memory.Questions.{var_named};
ghost use Rattle.session.specs.Memory.Sessions.{asserted_answer, checked_answer, FitsWith, AnswersSolver, AnswersWith, AnswersCheck};

use crate::answer::{Answer, Refusal};
use crate::questions::{disequality, term_exists, var_exists};
use shinri_core::context::sort_of;
use shinri_core::ids::{Lit, TermId, Var};
use shinri_core::limits::MAX_VARS;
use solver::answer::TCheck;
use solver::asserting::assert;
use solver::check::check;
use solver::disequalities::differ;
use solver::records::{is_registered, new_var, register};

// ---- `var`

// Is V below 1,024, and T a term?
fn var_named(c: &[u32], v: Var, x: TermId) -> bool
    requires { ContextSound c.now }
    ensures { result ≡ var_named c.now v.0 x.0 }
{
    (v.0 as usize) < MAX_VARS && term_exists(c, x)
}

pub fn var_line(
    c: &[u32],
    s: &mut [u32],
    closed: bool,
    v: Var,
    x: TermId,
) -> Result<Answer, Refusal>
    requires { FitsWith c.now s.old }
    ensures { AnswersSolver closed (Line.Register v.0 x.0) c.now s.old result s.new }
{
    if !closed {
        return Err(Refusal::Misplaced);
    }
    if !var_named(c, v, x) {
        return Err(Refusal::Missing);
    }
    if sort_of(c, x).0 != 0 {
        return Err(Refusal::Disagreeing);
    }
    if is_registered(s, v) {
        return Err(Refusal::Registered);
    }
    register(s, v, x);
    new_var(c, s, x);
    Ok(Answer::Ok)
}

// ---- `assert`

// An `assert` without conflict is done.
#[tactic(auto, unfolding(crate::specs::Memory::Sessions::asserted_answer, crate::specs::Memory::Sessions::checked_answer))]
fn asserted(r: TCheck) -> Answer
    ensures { Ok result ≡ asserted_answer r }
{
    if r == TCheck::Sat {
        return Answer::Ok;
    }
    Answer::from(r)
}

pub fn assert_line(
    c: &[u32],
    e: &[u32],
    s: &mut [u32],
    closed: bool,
    l: Lit,
    out: &mut [u32],
) -> Result<Answer, Refusal>
    requires { StateSound c.now e.now s.old × (answer_size ≤ length out.old) }
    ensures { AnswersWith closed (Line.Assert l.0) c.now e.now s.old result c.now e.now s.new out.new }
{
    if !closed {
        return Err(Refusal::Misplaced);
    }
    if !var_exists(s, l) {
        return Err(Refusal::Missing);
    }
    Ok(asserted(assert(c, e, s, l, out)))
}

// ---- `differ`

pub fn differ_line(c: &[u32], s: &mut [u32], closed: bool, l: Lit) -> Result<Answer, Refusal>
    requires { FitsWith c.now s.old }
    ensures { AnswersSolver closed (Line.Differ l.0) c.now s.old result s.new }
{
    if !closed {
        return Err(Refusal::Misplaced);
    }
    if !var_exists(s, l) {
        return Err(Refusal::Missing);
    }
    if !disequality(c, s, l) {
        return Err(Refusal::NotDisequality);
    }
    differ(s, l);
    Ok(Answer::Ok)
}

// ---- `check`

// What the solver answers a check, a line is answered.
impl From<TCheck> for Answer {
    ghost from_gives = { λ r a. Ok a ≡ checked_answer (Ok r) };

    #[tactic(auto, unfolding(crate::specs::Memory::Sessions::checked_answer))]
    fn from(r: TCheck) -> Answer {
        match r {
            TCheck::Sat => Answer::Sat,
            TCheck::Conflict => Answer::Conflict,
            TCheck::Split => Answer::Split,
            TCheck::Unknown => Answer::Unknown,
        }
    }
}

pub fn check_line(
    c: &mut [u32],
    e: &[u32],
    s: &mut [u32],
    closed: bool,
    full: bool,
    out: &mut [u32],
) -> Result<Answer, Refusal>
    requires { StateSound c.old e.now s.old × (answer_size ≤ length out.old) }
    ensures { AnswersCheck closed full c.old e.now s.old result c.new s.new
        out.new }
{
    if !closed {
        return Err(Refusal::Misplaced);
    }
    Ok(Answer::from(check(c, e, s, full, out)?))
}
