// The lines that change what the session keeps beside the tables: `close`, `push`, `pop`.
ghost use Rattle.shinri_core.specs.Memory.Table.{ContextSound};
ghost use Rattle.session.specs.Line as Line;
ghost use Rattle.session.specs.Memory.Sessions.{LevelsSound, AnswersClose, AnswersLevels};

use crate::answer::{Answer, Refusal};
use shinri_core::context::all_grounded;
use shinri_core::limits::MAX_LEVELS;
use solver::levels as marks;
use solver::levels::TesterMarks;
use theory::eq_engine::{level, pop, push};

pub fn close_line(c: &[u32], closed: &mut bool) -> Result<Answer, Refusal>
    requires { ContextSound c.now }
    ensures { AnswersClose c.now closed.old result closed.new }
{
    if *closed {
        return Err(Refusal::Misplaced);
    }
    if !all_grounded(c) {
        return Err(Refusal::NotGrounded);
    }
    *closed = true;
    Ok(Answer::Ok)
}

// The counts alone are kept: how many levels are open stands in the engine's table, and goes with them only for the call.
pub fn push_line(
    e: &mut [u32],
    s: &[u32],
    counts: &mut [u32; MAX_LEVELS],
    closed: bool,
) -> Result<Answer, Refusal>
    requires { LevelsSound e.old s.now counts.old }
    ensures { AnswersLevels Line.Push e.old s.now counts.old closed result e.new
        s.now counts.new }
{
    if !closed {
        return Err(Refusal::Misplaced);
    }
    let levels = level(e);
    if levels == MAX_LEVELS {
        return Err(Refusal::NoRoom);
    }
    push(e);
    let mut m = TesterMarks {
        levels,
        counts: *counts,
    };
    marks::push(s, &mut m);
    *counts = m.counts;
    Ok(Answer::Ok)
}

pub fn pop_line(
    e: &mut [u32],
    s: &mut [u32],
    counts: &mut [u32; MAX_LEVELS],
    closed: bool,
    to: u32,
) -> Result<Answer, Refusal>
    requires { LevelsSound e.old s.old counts.old }
    ensures { AnswersLevels (Line.Pop to) e.old s.old counts.old closed result e.new
        s.new counts.new }
{
    if !closed {
        return Err(Refusal::Misplaced);
    }
    let target = to as usize;
    let levels = level(e);
    pop(e, target);
    let mut m = TesterMarks {
        levels,
        counts: *counts,
    };
    marks::pop(s, &mut m, target);
    *counts = m.counts;
    Ok(Answer::Ok)
}
