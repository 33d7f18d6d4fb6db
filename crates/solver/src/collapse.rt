// Collapse and the tester lemma: by marked selector or tester application, then by marked application of its constructor in its
// argument's class, along the chain of the class. Collapse is done once for a class and a selector: a second time every term is there
// and every equation holds or was handed out.
ghost use Rattle.std.specs.Prelude.{◌<◌, length};
ghost use Rattle.shinri_core.specs.Context.{sel_app, tester_app};
ghost use Rattle.shinri_core.specs.Memory.Table.{context};
ghost use Rattle.solver.specs.Rules.{equate_field, collapse_at, collapse_lemma, tester_lemma_at, tester_lemma};
ghost use Rattle.solver.specs.Memory.Answer.{Tried};
ghost use Rattle.solver.specs.Memory.Checks.{Underway};
ghost use Rattle.solver.specs.Memory.Collapse.{when, by_apps, if_marked, at_made, selected, tested, FieldEquatable, Collapsible, Testable, SelectorOn, TesterOn, CollapsesAt, TestsAt, DoneSound, CollapsesOnce, CollapsibleOnce, SelectedBy, TestsSound, TestsOnce, TestableOnce};

use crate::answer::TCheck;
use crate::layout::Kind;
use crate::make::hand_out;
use crate::work::{W_MARK, ctor_of_class, lowest_of_class, next_of_class, root_of};
use shinri_core::context::{children, dt_role, mk_app, mk_eq, op, term_count};
use shinri_core::ids::{SymbolId, TermId};
use shinri_core::limits::{MAX_TERMS, NoRoom};
use shinri_core::table::{get_at, put_at};
use shinri_core::term::{DtRole, Op};

// The flags of a rule, one for each term (specs/Memory/Collapse.antt).
const FLAGS: usize = 0;

// A selector, which is selector `index` of a constructor, on an argument.
#[derive(Clone, Copy)]
struct Selection {
    selector: SymbolId,
    ctor: SymbolId,
    index: usize,
    arg: TermId,
}

// A tester of a constructor on an argument.
#[derive(Clone, Copy)]
struct Testing {
    tester: SymbolId,
    ctor: SymbolId,
    arg: TermId,
}

// ---- collapse

// Equates a made selector application with the field, unless the two are equal now.
fn equate_field(
    t: &mut [u32],
    e: &[u32],
    s: &mut [u32],
    w: &[u32],
    made: TermId,
    field: TermId,
    out: &mut [u32],
) -> Result<TCheck, NoRoom>
    requires { FieldEquatable t.old e.now s.old w.now made.0 field.0 out.old }
    ensures { Tried (λ S. equate_field field.0 (at_made made.0 S)) t.old e.now s.old
        w.now result t.new s.new w.now out.new }
{
    if root_of(t, e, w, made.0 as usize) == root_of(t, e, w, field.0 as usize) {
        return Ok(TCheck::Sat);
    }
    let x = mk_eq(t, made, field)?;
    Ok(hand_out(s, x, None, out))
}

// Selector i of an application's constructor is made on the application and equated with the field.
fn collapse_at(
    t: &mut [u32],
    e: &[u32],
    s: &mut [u32],
    w: &[u32],
    x: Selection,
    app: TermId,
    out: &mut [u32],
) -> Result<TCheck, NoRoom>
    requires { Collapsible t.old e.now s.old w.now x.selector.0 x.ctor.0 x.index app.0 out.old }
    ensures { CollapsesAt t.old e.now s.old w.now x.selector.0 x.ctor.0 x.index app.0 result
        t.new s.new out.new }
{
    match op(t, app) {
        Op::Eq => Ok(TCheck::Sat),
        Op::Uninterpreted(g) => {
            if g != x.ctor {
                return Ok(TCheck::Sat);
            }
            let field = TermId(children(t, app)[x.index]);
            let args = [app.0];
            let made = mk_app(t, x.selector, &args)?;
            equate_field(t, e, s, w, made, field, out)
        }
    }
}

// Along the class of a selector's argument.
fn collapse_class(
    t: &mut [u32],
    e: &[u32],
    s: &mut [u32],
    w: &[u32],
    x: Selection,
    out: &mut [u32],
) -> Result<TCheck, NoRoom>
    requires { SelectorOn t.old e.now s.old w.now x.selector.0 x.ctor.0 x.index x.arg.0 out.old }
    ensures { Tried (by_apps (collapse_at (selected x))) t.old e.now s.old w.now result t.new s.new w.now out.new }
{
    let mut next = lowest_of_class(t, e, w, x.arg);
    while let Some(app) = next {
        let r = collapse_at(t, e, s, w, x, app, out)?;
        if r != TCheck::Sat {
            return Ok(r);
        }
        next = next_of_class(w, app);
    }
    Ok(TCheck::Sat)
}

// The same, unless the flag of z says that it was done: z is the selector on the lowest application of the class.
fn collapse_flagged(
    t: &mut [u32],
    e: &[u32],
    s: &mut [u32],
    w: &[u32],
    done: &mut [u32],
    x: Selection,
    z: TermId,
    out: &mut [u32],
) -> Result<TCheck, NoRoom>
    requires { SelectedBy t.old e.now s.old w.now done.old x.selector.0 x.ctor.0 x.index x.arg.0 z.0 out.old }
    ensures { CollapsesOnce (by_apps (collapse_at (selected x))) t.old e.now s.old w.now result t.new s.new done.new out.new }
{
    let flag = z.0 as usize;
    if get_at(done, FLAGS, flag) != 0 {
        return Ok(TCheck::Sat);
    }
    let r = collapse_class(t, e, s, w, x, out)?;
    if r == TCheck::Sat {
        put_at(done, FLAGS, flag, 1);
    }
    Ok(r)
}

// The same, with the lowest application of the class, one of the selector's constructor.
fn collapse_once(
    t: &mut [u32],
    e: &[u32],
    s: &mut [u32],
    w: &[u32],
    done: &mut [u32],
    x: Selection,
    app: TermId,
    out: &mut [u32],
) -> Result<TCheck, NoRoom>
    requires { CollapsibleOnce t.old e.now s.old w.now done.old x.selector.0 x.ctor.0 x.index x.arg.0 app.0 out.old }
    ensures { CollapsesOnce (by_apps (collapse_at (selected x))) t.old e.now s.old w.now result t.new s.new done.new out.new }
{
    let args = [app.0];
    let z = mk_app(t, x.selector, &args)?;
    collapse_flagged(t, e, s, w, done, x, z, out)
}

// Once for a class and a selector, where the lowest application of the class is one of the selector's constructor.
fn collapse_argument(
    t: &mut [u32],
    e: &[u32],
    s: &mut [u32],
    w: &[u32],
    done: &mut [u32],
    x: Selection,
    out: &mut [u32],
) -> Result<TCheck, NoRoom>
    requires { SelectorOn t.old e.now s.old w.now x.selector.0 x.ctor.0 x.index x.arg.0 out.old × DoneSound t.old e.now s.old
        w.now done.old }
    ensures { CollapsesOnce (by_apps (collapse_at (selected x))) t.old e.now s.old w.now result t.new s.new done.new out.new }
{
    match ctor_of_class(t, e, w, x.arg) {
        Some((g, app)) if g == x.ctor => collapse_once(t, e, s, w, done, x, app, out),
        _ => collapse_class(t, e, s, w, x, out),
    }
}

// A selector application; another term lets the rule pass.
fn collapse_selector(
    t: &mut [u32],
    e: &[u32],
    s: &mut [u32],
    w: &[u32],
    done: &mut [u32],
    x: TermId,
    out: &mut [u32],
) -> Result<TCheck, NoRoom>
    requires { Underway t.old e.now s.old w.now out.old × DoneSound t.old e.now s.old w.now done.old ×
        (x.0 < length (context t.old).terms) }
    ensures { CollapsesOnce (λ S. when (λ a. by_apps (collapse_at a)) (sel_app (context t.old) x.0) S) t.old e.now s.old w.now result t.new s.new done.new out.new }
{
    match op(t, x) {
        Op::Eq => Ok(TCheck::Sat),
        Op::Uninterpreted(f) => match dt_role(t, f) {
            DtRole::Selector(ctor, i) => {
                let arg = TermId(children(t, x)[0]);
                let selection = Selection {
                    selector: f,
                    ctor,
                    index: i as usize,
                    arg,
                };
                collapse_argument(t, e, s, w, done, selection, out)
            }
            _ => Ok(TCheck::Sat),
        },
    }
}

// A term, if it is marked as a selector application.
fn collapse_term(
    t: &mut [u32],
    e: &[u32],
    s: &mut [u32],
    w: &[u32],
    done: &mut [u32],
    x: usize,
    out: &mut [u32],
) -> Result<TCheck, NoRoom>
    requires { Underway t.old e.now s.old w.now out.old × DoneSound t.old e.now s.old w.now done.old ×
        (x < length (context t.old).terms) }
    ensures { CollapsesOnce (if_marked w.now x (when (λ a. by_apps (collapse_at a)) (sel_app (context t.old) x))) t.old e.now s.old w.now result t.new s.new done.new out.new }
{
    let kind = get_at(w, W_MARK, x);
    if kind != Kind::SelApp as usize && kind != Kind::DtSelApp as usize {
        return Ok(TCheck::Sat);
    }
    collapse_selector(t, e, s, w, done, TermId(x as u32), out)
}

// By marked selector application, ascending.
pub fn collapse_lemma(
    t: &mut [u32],
    e: &[u32],
    s: &mut [u32],
    w: &[u32],
    out: &mut [u32],
) -> Result<TCheck, NoRoom>
    requires { Underway t.old e.now s.old w.now out.old }
    ensures { Tried collapse_lemma t.old e.now s.old w.now result t.new s.new w.now out.new }
{
    let mut done = [0u32; MAX_TERMS];
    for x in 0..term_count(t) {
        let r = collapse_term(t, e, s, w, &mut done, x, out)?;
        if r != TCheck::Sat {
            return Ok(r);
        }
    }
    Ok(TCheck::Sat)
}

// ---- tester lemma: the functions have the shape of those of collapse, but ask other facts and flag other terms, so that one trait over
// both rules, with its laws, would be longer than either

// The tester of an application's constructor on the application is handed out.
fn tester_lemma_at(
    t: &mut [u32],
    s: &mut [u32],
    x: Testing,
    app: TermId,
    out: &mut [u32],
) -> Result<TCheck, NoRoom>
    requires { Testable t.old s.old x.tester.0 x.ctor.0 app.0 out.old }
    ensures { TestsAt t.old s.old x.tester.0 x.ctor.0 app.0 result t.new s.new out.new }
{
    match op(t, app) {
        Op::Eq => Ok(TCheck::Sat),
        Op::Uninterpreted(g) => {
            if g != x.ctor {
                return Ok(TCheck::Sat);
            }
            let args = [app.0];
            let made = mk_app(t, x.tester, &args)?;
            Ok(hand_out(s, made, None, out))
        }
    }
}

// Along the class of a tester's argument.
fn tester_lemma_class(
    t: &mut [u32],
    e: &[u32],
    s: &mut [u32],
    w: &[u32],
    x: Testing,
    out: &mut [u32],
) -> Result<TCheck, NoRoom>
    requires { TesterOn t.old e.now s.old w.now x.tester.0 x.ctor.0 x.arg.0 out.old }
    ensures { Tried (by_apps (tester_lemma_at (tested x))) t.old e.now s.old w.now result t.new s.new w.now out.new }
{
    let mut next = lowest_of_class(t, e, w, x.arg);
    while let Some(app) = next {
        let r = tester_lemma_at(t, s, x, app, out)?;
        if r != TCheck::Sat {
            return Ok(r);
        }
        next = next_of_class(w, app);
    }
    Ok(TCheck::Sat)
}

// The same, unless the flag of y says that it was done for this tester: y is the lowest application of the class.
fn tester_lemma_once(
    t: &mut [u32],
    e: &[u32],
    s: &mut [u32],
    w: &[u32],
    done: &mut [u32],
    x: Testing,
    y: TermId,
    out: &mut [u32],
) -> Result<TCheck, NoRoom>
    requires { TestableOnce t.old e.now s.old w.now done.old x.tester.0 x.ctor.0 x.arg.0 y.0 out.old }
    ensures { TestsOnce (by_apps (tester_lemma_at (tested x))) t.old e.now s.old w.now result t.new s.new done.new out.new }
{
    let flag = y.0 as usize;
    let word = x.tester.0 as usize + 1;
    if get_at(done, FLAGS, flag) == word {
        return Ok(TCheck::Sat);
    }
    let r = tester_lemma_class(t, e, s, w, x, out)?;
    if r == TCheck::Sat {
        put_at(done, FLAGS, flag, word);
    }
    Ok(r)
}

// Once for a class, where its lowest application is one of the tester's constructor.
fn tester_lemma_argument(
    t: &mut [u32],
    e: &[u32],
    s: &mut [u32],
    w: &[u32],
    done: &mut [u32],
    x: Testing,
    out: &mut [u32],
) -> Result<TCheck, NoRoom>
    requires { TesterOn t.old e.now s.old w.now x.tester.0 x.ctor.0 x.arg.0 out.old × TestsSound t.old e.now s.old
        w.now done.old }
    ensures { TestsOnce (by_apps (tester_lemma_at (tested x))) t.old e.now s.old w.now result t.new s.new done.new out.new }
{
    match ctor_of_class(t, e, w, x.arg) {
        Some((g, app)) if g == x.ctor => tester_lemma_once(t, e, s, w, done, x, app, out),
        _ => tester_lemma_class(t, e, s, w, x, out),
    }
}

// A tester application; another term lets the rule pass.
fn tester_lemma_of(
    t: &mut [u32],
    e: &[u32],
    s: &mut [u32],
    w: &[u32],
    done: &mut [u32],
    x: TermId,
    out: &mut [u32],
) -> Result<TCheck, NoRoom>
    requires { Underway t.old e.now s.old w.now out.old × TestsSound t.old e.now s.old w.now done.old ×
        (x.0 < length (context t.old).terms) }
    ensures { TestsOnce (λ S. when (λ a. by_apps (tester_lemma_at a)) (tester_app (context t.old) x.0) S) t.old e.now s.old w.now result t.new s.new done.new out.new }
{
    match op(t, x) {
        Op::Eq => Ok(TCheck::Sat),
        Op::Uninterpreted(f) => match dt_role(t, f) {
            DtRole::Tester(ctor) => {
                let arg = TermId(children(t, x)[0]);
                let testing = Testing {
                    tester: f,
                    ctor,
                    arg,
                };
                tester_lemma_argument(t, e, s, w, done, testing, out)
            }
            _ => Ok(TCheck::Sat),
        },
    }
}

// A term, if it is marked as a tester application.
fn tester_lemma_term(
    t: &mut [u32],
    e: &[u32],
    s: &mut [u32],
    w: &[u32],
    done: &mut [u32],
    x: usize,
    out: &mut [u32],
) -> Result<TCheck, NoRoom>
    requires { Underway t.old e.now s.old w.now out.old × TestsSound t.old e.now s.old w.now done.old ×
        (x < length (context t.old).terms) }
    ensures { TestsOnce (if_marked w.now x (when (λ a. by_apps (tester_lemma_at a)) (tester_app (context t.old) x))) t.old e.now s.old w.now result t.new s.new done.new out.new }
{
    if get_at(w, W_MARK, x) != Kind::TesterApp as usize {
        return Ok(TCheck::Sat);
    }
    tester_lemma_of(t, e, s, w, done, TermId(x as u32), out)
}

// By marked tester application, ascending.
pub fn tester_lemma(
    t: &mut [u32],
    e: &[u32],
    s: &mut [u32],
    w: &[u32],
    out: &mut [u32],
) -> Result<TCheck, NoRoom>
    requires { Underway t.old e.now s.old w.now out.old }
    ensures { Tried tester_lemma t.old e.now s.old w.now result t.new s.new w.now out.new }
{
    let mut done = [0u32; MAX_TERMS];
    for x in 0..term_count(t) {
        let r = tester_lemma_term(t, e, s, w, &mut done, x, out)?;
        if r != TCheck::Sat {
            return Ok(r);
        }
    }
    Ok(TCheck::Sat)
}
