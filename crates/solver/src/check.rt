// A check: the rules in order, the first that applies answers.
ghost use Rattle.std.specs.Prelude.{◌≡◌, ◌≤◌, length};
ghost use Rattle.shinri_core.specs.Memory.Table.{context, ContextSound};
ghost use Rattle.theory.specs.Memory.Answer.{answer_size};
ghost use Rattle.solver.specs.Check.{before_ring};
ghost use Rattle.solver.specs.Memory.Table.{StateSound};
ghost use Rattle.solver.specs.Memory.Work.{CheckSound};
ghost use Rattle.solver.specs.Memory.Answer.{Tried};
ghost use Rattle.solver.specs.Memory.Testing.{Lone};
ghost use Rattle.solver.specs.Memory.Checks.{from_instantiation, from_tester_lemma, from_collapse, from_injectivity, from_disequality_clash, from_negative_clash, from_tester_clash, Underway, UnmarkedAsked, Beginnable, ChecksFully, MarksFit, KeepsMarks, ChecksKept, Checks};

use crate::answer::TCheck;
use crate::clashes::{negative_clash, tester_clash};
use crate::collapse::{collapse_lemma, tester_lemma};
use crate::constructor_clash::constructor_clash;
use crate::disequalities::disequality_clash;
use crate::exhaustiveness::{exhaustiveness_split, split_watched};
use crate::injectivity::instantiate_injectivity_selectors;
use crate::instantiation::instantiate_constructor;
use crate::layout::MARK;
use crate::records::{has_app, has_lasting, put_mark};
use crate::ring::ring;
use crate::work::{W_MARK, WORK_SIZE, begin};
use shinri_core::context::{term_count, truncate};
use shinri_core::limits::NoRoom;
use shinri_core::table::get_at;

// ---- the rules before the ring, from each of them on

// One after the other, each with what follows it: as closures the rules would each take the five tables once more.

// Guarded instantiation, then exhaustiveness and unknown.
fn from_instantiation(
    t: &mut [u32],
    e: &[u32],
    s: &mut [u32],
    w: &mut [u32],
    out: &mut [u32],
) -> Result<TCheck, NoRoom>
    requires { CheckSound t.old e.now s.old w.old × (answer_size ≤ length out.old) }
    ensures { Tried from_instantiation t.old e.now s.old w.old result t.new
        s.new w.new out.new }
{
    let r = instantiate_constructor(t, e, s, w, out)?;
    if r != TCheck::Sat {
        return Ok(r);
    }
    exhaustiveness_split(t, e, s, w, out)
}

// Tester lemma, and what follows it.
fn from_tester_lemma(
    t: &mut [u32],
    e: &[u32],
    s: &mut [u32],
    w: &mut [u32],
    out: &mut [u32],
) -> Result<TCheck, NoRoom>
    requires { Underway t.old e.now s.old w.old out.old }
    ensures { Tried from_tester_lemma t.old e.now s.old w.old result t.new
        s.new w.new out.new }
{
    let r = tester_lemma(t, e, s, w, out)?;
    if r != TCheck::Sat {
        return Ok(r);
    }
    from_instantiation(t, e, s, w, out)
}

// Collapse, and what follows it.
fn from_collapse(
    t: &mut [u32],
    e: &[u32],
    s: &mut [u32],
    w: &mut [u32],
    out: &mut [u32],
) -> Result<TCheck, NoRoom>
    requires { Underway t.old e.now s.old w.old out.old }
    ensures { Tried from_collapse t.old e.now s.old w.old result t.new s.new w.new out.new }
{
    let r = collapse_lemma(t, e, s, w, out)?;
    if r != TCheck::Sat {
        return Ok(r);
    }
    from_tester_lemma(t, e, s, w, out)
}

// Injectivity selectors, and what follows them.
fn from_injectivity(
    t: &mut [u32],
    e: &[u32],
    s: &mut [u32],
    w: &mut [u32],
    out: &mut [u32],
) -> Result<TCheck, NoRoom>
    requires { Underway t.old e.now s.old w.old out.old }
    ensures { Tried from_injectivity t.old e.now s.old w.old result t.new
        s.new w.new out.new }
{
    instantiate_injectivity_selectors(t, e, w)?;
    from_collapse(t, e, s, w, out)
}

// Unequal terms, and what follows them.
fn from_disequality_clash(
    t: &mut [u32],
    e: &[u32],
    s: &mut [u32],
    w: &mut [u32],
    out: &mut [u32],
) -> Result<TCheck, NoRoom>
    requires { Underway t.old e.now s.old w.old out.old }
    ensures { Tried from_disequality_clash t.old e.now s.old w.old result t.new
        s.new w.new out.new }
{
    let r = disequality_clash(t, e, s, out);
    if r != TCheck::Sat {
        return Ok(r);
    }
    from_injectivity(t, e, s, w, out)
}

// Negative testers, and what follows them.
fn from_negative_clash(
    t: &mut [u32],
    e: &[u32],
    s: &mut [u32],
    w: &mut [u32],
    out: &mut [u32],
) -> Result<TCheck, NoRoom>
    requires { Underway t.old e.now s.old w.old out.old × Lone t.old e.now w.old }
    ensures { Tried from_negative_clash t.old e.now s.old w.old result t.new
        s.new w.new out.new }
{
    let r = negative_clash(t, e, s, w, out);
    if r != TCheck::Sat {
        return Ok(r);
    }
    from_disequality_clash(t, e, s, w, out)
}

// Tester clash, and what follows it.
fn from_tester_clash(
    t: &mut [u32],
    e: &[u32],
    s: &mut [u32],
    w: &mut [u32],
    out: &mut [u32],
) -> Result<TCheck, NoRoom>
    requires { Underway t.old e.now s.old w.old out.old × Lone t.old e.now w.old }
    ensures { Tried from_tester_clash t.old e.now s.old w.old result t.new
        s.new w.new out.new }
{
    let r = tester_clash(t, e, s, w, out);
    if r != TCheck::Sat {
        return Ok(r);
    }
    from_negative_clash(t, e, s, w, out)
}

// Constructor clash, and what follows it.
fn before_ring(
    t: &mut [u32],
    e: &[u32],
    s: &mut [u32],
    w: &mut [u32],
    out: &mut [u32],
) -> Result<TCheck, NoRoom>
    requires { Underway t.old e.now s.old w.old out.old }
    ensures { Tried before_ring t.old e.now s.old w.old result t.new s.new w.new out.new }
{
    let r = constructor_clash(t, e, s, w, out);
    if r != TCheck::Sat {
        return Ok(r);
    }
    from_tester_clash(t, e, s, w, out)
}

// ---- a check

// A full check on a blank work table.
fn full_check(
    t: &mut [u32],
    e: &[u32],
    s: &mut [u32],
    w: &mut [u32],
    out: &mut [u32],
) -> Result<TCheck, NoRoom>
    requires { Beginnable t.old e.now s.old w.old out.old }
    ensures { ChecksFully t.old e.now s.old result t.new s.new w.new out.new }
{
    begin(t, e, s, w);
    let r = before_ring(t, e, s, w, out)?;
    if r != TCheck::Sat {
        return Ok(r);
    }
    Ok(ring(t, e, w, out))
}

// The marks of the work table become the solver's. Behind the last term neither has any.
fn keep_marks(t: &[u32], s: &mut [u32], w: &[u32])
    requires { ContextSound t.now × MarksFit s.old w.now }
    ensures { KeepsMarks (length (context t.now).terms) s.old w.now s.new }
{
    for x in 0..term_count(t) {
        let kind = get_at(w, W_MARK, x);
        if get_at(s, MARK, x) != kind {
            put_mark(s, x, kind);
        }
    }
}

// A full check with a work table; its marks are kept if its terms fit. (Never inlined: else each line, checks or not, would make room
// for the work table on the stack, and touch each page of it.)
#[inline(never)]
fn check_classes(t: &mut [u32], e: &[u32], s: &mut [u32], out: &mut [u32]) -> Result<TCheck, NoRoom>
    requires { StateSound t.old e.now s.old × (answer_size ≤ length out.old) }
    ensures { ChecksKept t.old e.now s.old result t.new s.new out.new }
{
    let mut w = [0u32; WORK_SIZE];
    let r = full_check(t, e, s, &mut w, out)?;
    keep_marks(t, s, &w);
    Ok(r)
}

// A full check where no constructor application is marked and no tester was ever asserted positively: only unequal terms and the watched
// terms matter, for a negative tester has nothing to conflict with.
fn check_watched(t: &mut [u32], e: &[u32], s: &mut [u32], out: &mut [u32]) -> Result<TCheck, NoRoom>
    requires { UnmarkedAsked t.old e.now s.old out.old }
    ensures { ChecksKept t.old e.now s.old result t.new s.new out.new }
{
    let r = disequality_clash(t, e, s, out);
    if r != TCheck::Sat {
        return Ok(r);
    }
    split_watched(t, s, out)
}

// A full check.
fn check_fully(t: &mut [u32], e: &[u32], s: &mut [u32], out: &mut [u32]) -> Result<TCheck, NoRoom>
    requires { StateSound t.old e.now s.old × (answer_size ≤ length out.old) }
    ensures { ChecksKept t.old e.now s.old result t.new s.new out.new }
{
    if !has_app(s) && !has_lasting(t, s) {
        return check_watched(t, e, s, out);
    }
    check_classes(t, e, s, out)
}

// A check; one that is not full does nothing. If the terms that it makes do not fit, they are given back, and its marks are dropped
// with the work table.
pub fn check(
    t: &mut [u32],
    e: &[u32],
    s: &mut [u32],
    full: bool,
    out: &mut [u32],
) -> Result<TCheck, NoRoom>
    requires { StateSound t.old e.now s.old × (answer_size ≤ length out.old) }
    ensures { Checks full t.old e.now s.old result t.new s.new out.new }
{
    if !full {
        return Ok(TCheck::Sat);
    }
    let n = term_count(t);
    let r = check_fully(t, e, s, out);
    if r.is_err() {
        truncate(t, n);
    }
    r
}
