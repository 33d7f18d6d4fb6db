// Exhaustiveness, and unknown while a watched class has no marked constructor application.
ghost use Rattle.std.specs.Prelude.{ℕ, ◌+◌, ◌≡◌, ◌||◌, ◌≤◌, ◌<◌, eqb, length};
ghost use Rattle.shinri_core.specs.Limits.{max_terms, table_words};
ghost use Rattle.shinri_core.specs.Formed.{Formed};
ghost use Rattle.shinri_core.specs.Memory.Words.{at};
ghost use Rattle.shinri_core.specs.Memory.Table.{context, ContextSound};
ghost use Rattle.theory.specs.Memory.Answer.{answer_size};
ghost use Rattle.solver.specs.Rules.{phase, then, exhaustiveness_split, unknown_fence};
ghost use Rattle.solver.specs.Memory.Table.{SolverSound};
ghost use Rattle.solver.specs.Memory.Work.{ClassAsked, CheckSound};
ghost use Rattle.solver.specs.Memory.Answer.{phase_meaning, Tried};
ghost use Rattle.solver.specs.Memory.Checks.{WatchedAsked, ChecksWatched};
ghost use Rattle.solver.specs.Memory.Splitting.{is_undetermined, LowestAsking, Passed, Watches, Testable, MakesTester, Splittable, MakesTesters, SplitsOn, FoundAsked, FoundAnswered};

use crate::answer::{Phase, TCheck, clear_split, push_tester};
use crate::layout::{Kind, MARK, SPLIT};
use crate::work::{W_MARK, ctor_of_class};
use shinri_core::context::{arity, dt_tester, mk_app, next_constructor, sort_of, term_count};
use shinri_core::ids::{SymbolId, TermId};
use shinri_core::limits::NoRoom;
use shinri_core::table::{get_at, put_at};

// What the watched terms ask whose classes have no marked constructor application: a split on the lowest that was not split on; where
// all were, there is no answer yet.
#[derive(Clone, Copy)]
pub enum Undetermined {
    Split(TermId),
    Unknown,
    Nothing,
}

// Is x marked as a watched term? Constructor applications are watched too, but their class has one.
fn is_watched(marks: &[u32], base: usize, x: usize) -> bool
    requires { (base + max_terms ≤ length marks.now) × (x < max_terms) }
    ensures { result ≡ (eqb (at marks.now base x) 3 || eqb (at marks.now base x) 5) }
{
    let kind = get_at(marks, base, x);
    kind == Kind::DtSelApp as usize || kind == Kind::DtFunApp as usize
}

// Is x a watched term whose class has no marked constructor application?
fn is_undetermined(t: &[u32], e: &[u32], w: &[u32], x: usize) -> bool
    requires { ClassAsked t.now e.now w.now x × Formed (context t.now) }
    ensures { result ≡ is_undetermined t.now e.now w.now x }
{
    is_watched(w, W_MARK, x) && ctor_of_class(t, e, w, TermId(x as u32)).is_none()
}

// One pass over the terms that ask, ascending.
fn lowest_asking<F: Fn(usize) -> bool>(t: &[u32], s: &[u32], asks: F) -> Undetermined
    requires { ContextSound t.now × (table_words ≤ length s.now) × ((x : ℕ) → x < length (context t.now).terms → F.pre asks x) }
    ensures { LowestAsking (λ x b. F.post asks x b) t.now s.now result }
{
    let mut unknown = false;
    for x in 0..term_count(t) {
        if asks(x) {
            if get_at(s, SPLIT, x) == 0 {
                return Undetermined::Split(TermId(x as u32));
            }
            unknown = true;
        }
    }
    if unknown {
        Undetermined::Unknown
    } else {
        Undetermined::Nothing
    }
}

// What the watched terms ask.
fn has_undetermined_class(t: &[u32], e: &[u32], s: &[u32], w: &[u32]) -> Undetermined
    requires { CheckSound t.now e.now s.now w.now }
    ensures { Passed t.now e.now s.now w.now result }
{
    lowest_asking(t, s, |x| is_undetermined(t, e, w, x))
}

// The same where no constructor application is marked, by the marks of the solver's table: no class has one.
fn has_watched_term(t: &[u32], s: &[u32]) -> Undetermined
    requires { ContextSound t.now × (table_words ≤ length s.now) }
    ensures { Watches t.now s.now result }
{
    lowest_asking(t, s, |x| is_watched(s, MARK, x))
}

// ---- the split

// The preferred phase of a constructor's tester: positive where the constructor has no fields.
fn phase(t: &[u32], f: SymbolId) -> Phase
    requires { ContextSound t.now × (f.0 < length (context t.now).symbols) }
    ensures { phase_meaning result ≡ phase (context t.now) f.0 }
{
    if arity(t, f) == 0 {
        Phase::Positive
    } else {
        Phase::NoPhase
    }
}

// The tester of a constructor is made on a term and listed with its phase.
fn make_tester(t: &mut [u32], x: TermId, f: SymbolId, out: &mut [u32]) -> Result<(), NoRoom>
    requires { Testable t.old x.0 f.0 out.old }
    ensures { MakesTester t.old x.0 f.0 out.old result t.new out.new }
{
    let p = phase(t, f);
    let args = [x.0];
    let y = mk_app(t, dt_tester(f), &args)?;
    push_tester(out, y, p);
    Ok(())
}

// The testers of all constructors of a term's sort, as declared.
fn make_testers(t: &mut [u32], x: TermId, out: &mut [u32]) -> Result<(), NoRoom>
    requires { Splittable t.old x.0 out.old }
    ensures { MakesTesters t.old x.0 result t.new out.new }
{
    clear_split(out);
    let sort = sort_of(t, x);
    let mut from = 0;
    while let Some(f) = next_constructor(t, sort, from) {
        make_tester(t, x, f, out)?;
        from = f.0 as usize + 1;
    }
    Ok(())
}

// A term is split on only if all testers fit.
fn split_on(t: &mut [u32], s: &mut [u32], x: TermId, out: &mut [u32]) -> Result<TCheck, NoRoom>
    requires { Splittable t.old x.0 out.old × SolverSound s.old }
    ensures { SplitsOn t.old s.old x.0 result t.new s.new out.new }
{
    make_testers(t, x, out)?;
    put_at(s, SPLIT, x.0 as usize, 1);
    Ok(TCheck::Split)
}

// What was found is answered: by a split, or by unknown; where nothing was, the rule passes.
fn answer_found(
    t: &mut [u32],
    s: &mut [u32],
    found: Undetermined,
    out: &mut [u32],
) -> Result<TCheck, NoRoom>
    requires { FoundAsked t.old s.old found out.old }
    ensures { FoundAnswered found t.old s.old result t.new s.new out.new }
{
    match found {
        Undetermined::Split(x) => split_on(t, s, x, out),
        Undetermined::Unknown => Ok(TCheck::Unknown),
        Undetermined::Nothing => Ok(TCheck::Sat),
    }
}

// Exhaustiveness, then unknown.
pub fn exhaustiveness_split(
    t: &mut [u32],
    e: &[u32],
    s: &mut [u32],
    w: &[u32],
    out: &mut [u32],
) -> Result<TCheck, NoRoom>
    requires { CheckSound t.old e.now s.old w.now × (answer_size ≤ length out.old) }
    ensures { Tried (λ S. then (exhaustiveness_split S) (λ S'. unknown_fence S'))
        t.old e.now s.old w.now
        result t.new s.new w.now out.new }
{
    let found = has_undetermined_class(t, e, s, w);
    answer_found(t, s, found, out)
}

// The rest of a check where no constructor application is marked, no tester was asserted and no unequal terms are equal: nothing else
// applies.
pub fn split_watched(t: &mut [u32], s: &mut [u32], out: &mut [u32]) -> Result<TCheck, NoRoom>
    requires { WatchedAsked t.old s.old out.old }
    ensures { ChecksWatched t.old s.old result t.new s.new out.new }
{
    let found = has_watched_term(t, s);
    answer_found(t, s, found, out)
}
