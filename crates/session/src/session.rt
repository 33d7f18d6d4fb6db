// One line answered (specs/Session.antt). What the session keeps beside the three tables is lent: few lines change it.
ghost use Rattle.session.specs.Memory.Sessions.{beside, Performable, Performs, Steppable, Steps};

use crate::answer::{Answer, Refusal};
use crate::declaring::{ctor_line, fun_line, sort_line};
use crate::levels::{close_line, pop_line, push_line};
use crate::line::{Command, read_line};
use crate::making::{eq_line, term_line};
use crate::merging::{cong_line, equate_line, iface_line};
use crate::solving::{assert_line, check_line, differ_line, var_line};
use shinri_core::limits::MAX_LEVELS;

// What a session keeps beside the three tables: the mark counts of the records, and whether a `close` was accepted.
#[derive(Clone, Copy)]
pub struct Beside {
    pub counts: [u32; MAX_LEVELS],
    pub closed: bool,
}

// A line that was read is answered.
fn perform(
    c: &mut [u32],
    e: &mut [u32],
    s: &mut [u32],
    kept: &mut Beside,
    k: Command,
    numbers: &[u32],
    out: &mut [u32],
) -> Result<Answer, Refusal>
    requires { Performable c.old e.old s.old (beside e.old kept.old.counts kept.old.closed) k numbers.now out.old }
    ensures { Performs k numbers.now c.old e.old s.old
        (beside e.old kept.old.counts kept.old.closed) result c.new e.new s.new
        (beside e.new kept.new.counts kept.new.closed) out.new }
{
    // whether the line stands behind a `close`
    let late = kept.closed;
    match k {
        Command::Unreadable => Err(Refusal::Unreadable),
        Command::DeclareSort(datatype) => sort_line(c, late, datatype),
        Command::DeclareCtor(dt, n) => ctor_line(c, late, dt, &numbers[1..n + 1]),
        Command::DeclareFun(result, n) => fun_line(c, late, result, &numbers[1..n + 1]),
        Command::Close => close_line(c, &mut kept.closed),
        Command::MkTerm(f, n) => term_line(c, late, f, &numbers[1..n + 1]),
        Command::MkEq(t, u) => eq_line(c, late, t, u),
        Command::Register(v, x) => var_line(c, s, late, v, x),
        Command::Equate(l) => equate_line(c, e, s, late, l),
        Command::Cong(t, u) => cong_line(c, e, late, t, u),
        Command::Iface(t, u, j) => iface_line(c, e, late, t, u, j),
        Command::Assert(l) => assert_line(c, e, s, late, l, out),
        Command::Differ(l) => differ_line(c, s, late, l),
        Command::Push => push_line(e, s, &mut kept.counts, late),
        Command::Pop(to) => pop_line(e, s, &mut kept.counts, late, to),
        Command::Check(full) => check_line(c, e, s, late, full, out),
    }
}

// One line: read, asked, answered.
pub fn step(
    c: &mut [u32],
    e: &mut [u32],
    s: &mut [u32],
    kept: &mut Beside,
    line: &[u8],
    numbers: &mut [u32],
    out: &mut [u32],
) -> Result<Answer, Refusal>
    requires { Steppable c.old e.old s.old (beside e.old kept.old.counts kept.old.closed) numbers.old out.old }
    ensures { Steps line.now c.old e.old s.old
        (beside e.old kept.old.counts kept.old.closed) result c.new e.new s.new
        (beside e.new kept.new.counts kept.new.closed) out.new }
{
    let k = read_line(line, numbers);
    perform(c, e, s, kept, k, numbers, out)
}
