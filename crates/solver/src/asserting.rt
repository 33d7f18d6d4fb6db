// Asserting a literal (DtSolver::assert).
ghost use Rattle.solver.specs.Memory.Testing.{TesterAsked, TesterConflict};
ghost use Rattle.solver.specs.Memory.Asserting.{TesterAssertable, AssertsTester, Assertable, Asserts};

use crate::answer::TCheck;
use crate::clashes::{negative_conflict, tester_conflict};
use crate::layout::{Kind, MARK, MARKS_SIZE};
use crate::levels::record_tester;
use crate::records::atom;
use crate::roles::term_kind;
use shinri_core::ids::{Lit, TermId};

// The conflict of a tester that is asserted, by its sign. Different constructors may stand in one class now, so a negative one looks for
// its own.
fn asserted_conflict(
    t: &[u32],
    e: &[u32],
    w: &[u32],
    l: Lit,
    positive: bool,
    x: TermId,
    out: &mut [u32],
) -> TCheck
    requires { TesterAsked t.now e.now w.now x.0 out.old }
    ensures { TesterConflict positive t.now e.now w.now l.0 x.0 result out.new }
{
    if positive {
        return tester_conflict(t, e, w, l, true, x, out);
    }
    negative_conflict(t, e, w, l, x, out)
}

// A tester is compared with its term's class, and recorded. The marks are lent as a short work table.
fn assert_tester(
    t: &[u32],
    e: &[u32],
    s: &mut [u32],
    l: Lit,
    positive: bool,
    x: TermId,
    out: &mut [u32],
) -> TCheck
    requires { TesterAssertable t.now e.now s.old l.0 x.0 out.old }
    ensures { AssertsTester positive t.now e.now s.old l.0 x.0 result s.new
        out.new }
{
    let r = asserted_conflict(t, e, &s[MARK..MARK + MARKS_SIZE], l, positive, x, out);
    record_tester(s, x, l, positive);
    r
}

// Literals of other atoms give no record.
pub fn assert(t: &[u32], e: &[u32], s: &mut [u32], l: Lit, out: &mut [u32]) -> TCheck
    requires { Assertable t.now e.now s.old l.0 out.old }
    ensures { Asserts t.now e.now s.old l.0 result s.new out.new }
{
    let x = atom(s, l.var());
    if term_kind(t, x) != Some(Kind::TesterApp) {
        return TCheck::Sat;
    }
    assert_tester(t, e, s, l, l.is_positive(), x, out)
}
