// The lines that make terms: `term` and `eq`.
ghost use Rattle.std.specs.Prelude.{◌≡◌};
ghost use Rattle.shinri_core.specs.Memory.Table.{ContextSound};
ghost use Rattle.session.specs.Line as Line;
ghost use Rattle.session.specs.Memory.Sessions.{AnswersCore};

use crate::answer::{Answer, Refusal};
use crate::questions::{app_exists, may_equate, sorts_agree, two_exist};
use shinri_core::context::{mk_app, mk_eq};
use shinri_core::ids::{SymbolId, TermId};

pub fn term_line(c: &mut [u32], closed: bool, f: SymbolId, args: &[u32]) -> Result<Answer, Refusal>
    requires { ContextSound c.old }
    ensures { AnswersCore closed (Line.MkTerm f.0 args.now) c.old result c.new }
{
    if !closed {
        return Err(Refusal::Misplaced);
    }
    if !app_exists(c, f, args) {
        return Err(Refusal::Missing);
    }
    if !sorts_agree(c, f, args) {
        return Err(Refusal::Disagreeing);
    }
    Ok(Answer::TermIs(mk_app(c, f, args)?))
}

pub fn eq_line(c: &mut [u32], closed: bool, t: TermId, u: TermId) -> Result<Answer, Refusal>
    requires { ContextSound c.old }
    ensures { AnswersCore closed (Line.MkEq t.0 u.0) c.old result c.new }
{
    if !closed {
        return Err(Refusal::Misplaced);
    }
    if !two_exist(c, t, u) {
        return Err(Refusal::Missing);
    }
    if !may_equate(c, t, u) {
        return Err(Refusal::Disagreeing);
    }
    Ok(Answer::TermIs(mk_eq(c, t, u)?))
}
