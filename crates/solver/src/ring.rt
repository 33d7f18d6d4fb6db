// The ring rule: a depth-first walk over classes, each standing by its lowest marked constructor application (specs/Memory/Walking.antt).
ghost use Rattle.std.specs.Prelude.{◌≡◌, ◌≤◌, ◌<◌, length};
ghost use Rattle.shinri_core.specs.Limits.{max_terms};
ghost use Rattle.shinri_core.specs.Context.{children};
ghost use Rattle.shinri_core.specs.Memory.Table.{context};
ghost use Rattle.theory.specs.Memory.Answer.{answer_size};
ghost use Rattle.solver.specs.Memory.Making.{Making};
ghost use Rattle.solver.specs.Memory.Checks.{Ringable, Rings};
ghost use Rattle.solver.specs.Memory.Walking.{ring_size, pushed, PathRoom, WalkSound, EnterOutcome, FieldOutcome, StepOutcome, WalkOutcome, WatchedOutcome, SeekOutcome, Unmet, RingAt, CycleOutcome, RingBegins, RingLeaves};

use crate::answer::TCheck;
use crate::work::{W_MARK, ctor_of_class};
use shinri_core::context::{children, is_datatype_sort, sort_of, term_count};
use shinri_core::ids::TermId;
use shinri_core::table::{get_at, put_at};
use theory::eq_engine::explain;
use theory::types::clear_leaves;

// The regions of the walk's table: for each application its colour; for each place of the path its application, the field that led to
// it, and how many fields are still to be tried.
const COLOUR: usize = 0;

const PATH_APP: usize = 1024;

const PATH_VIA: usize = 2048;

const PATH_LEFT: usize = 3072;

const RING_SIZE: usize = 4096;

// The colours of applications that were met: words of the walk's table, 0 before, which are only stored and compared.
const ON_PATH: usize = 1;

const FINISHED: usize = 2;

// A ring on the path: the field that closes it, the application that it leads back to, and how long the path is.
#[derive(Clone, Copy)]
pub struct Cycle {
    field: TermId,
    app: TermId,
    len: usize,
}

// ---- the walk: it goes on with so many applications on the path, or ends with a ring

// One more application on the path.
fn push(t: &[u32], r: &mut [u32], n: usize, field: TermId, x: TermId)
    requires { PathRoom t.now r.old n x.0 }
    ensures { r.new ≡ pushed r.old n field.0 x.0 (length (children (context t.now) x.0)) }
{
    let i = x.0 as usize;
    let fields = children(t, x);
    let count = fields.len();
    put_at(r, COLOUR, i, ON_PATH);
    put_at(r, PATH_APP, n, i);
    put_at(r, PATH_VIA, n, field.0 as usize);
    put_at(r, PATH_LEFT, n, count);
}

// Enters a field from the path: it leads back to the path, or to an application that was not met before and is on the path now, or to
// nothing that is to be walked.
fn enter(
    t: &[u32],
    e: &[u32],
    w: &[u32],
    r: &mut [u32],
    n: usize,
    field: TermId,
) -> Result<usize, Cycle>
    requires { WalkSound t.now e.now w.now r.old n × (field.0 < length (context t.now).terms) }
    ensures { EnterOutcome t.now e.now w.now r.old n field.0 result r.new }
{
    match ctor_of_class(t, e, w, field) {
        None => Ok(n),
        Some((_, app)) => {
            let colour = get_at(r, COLOUR, app.0 as usize);
            if colour == ON_PATH {
                return Err(Cycle { field, app, len: n });
            }
            if colour == FINISHED {
                return Ok(n);
            }
            push(t, r, n, field, app);
            Ok(n + 1)
        }
    }
}

// Tries a field of the newest application, which is no longer among those to be tried.
fn try_field(
    t: &[u32],
    e: &[u32],
    w: &[u32],
    r: &mut [u32],
    n: usize,
    field: TermId,
) -> Result<usize, Cycle>
    requires { WalkSound t.now e.now w.now r.old n × (field.0 < length (context t.now).terms) }
    ensures { FieldOutcome t.now e.now w.now r.old n field.0 result r.new }
{
    if is_datatype_sort(t, sort_of(t, field)) {
        enter(t, e, w, r, n, field)
    } else {
        Ok(n)
    }
}

// One step: the next field of the newest application, or the end of its fields.
fn advance(t: &[u32], e: &[u32], w: &[u32], r: &mut [u32], n: usize) -> Result<usize, Cycle>
    requires { WalkSound t.now e.now w.now r.old n × (0 < n) }
    ensures { StepOutcome t.now e.now w.now r.old n result r.new }
{
    let top = n - 1;
    let app = get_at(r, PATH_APP, top);
    let left = get_at(r, PATH_LEFT, top);
    if left == 0 {
        put_at(r, COLOUR, app, FINISHED);
        return Ok(top);
    }
    put_at(r, PATH_LEFT, top, left - 1);
    let fields = children(t, TermId(app as u32));
    let field = fields[left - 1];
    try_field(t, e, w, r, n, TermId(field))
}

// The walk from a path, until nothing is on it.
fn walk(t: &[u32], e: &[u32], w: &[u32], r: &mut [u32], from: usize) -> Result<(), Cycle>
    requires { WalkSound t.now e.now w.now r.old from }
    ensures { WalkOutcome t.now e.now w.now r.old from result r.new }
{
    let mut n = from;
    while n != 0 {
        n = advance(t, e, w, r, n)?;
    }
    Ok(())
}

// The walk from a watched term.
fn walk_watched(t: &[u32], e: &[u32], w: &[u32], r: &mut [u32], x: TermId) -> Result<(), Cycle>
    requires { WalkSound t.now e.now w.now r.old 0 × (x.0 < length (context t.now).terms) }
    ensures { WatchedOutcome t.now e.now w.now r.old x.0 result r.new }
{
    let n = enter(t, e, w, r, 0, x)?;
    walk(t, e, w, r, n)
}

// The walk from a term, if it is watched.
fn walk_term(t: &[u32], e: &[u32], w: &[u32], r: &mut [u32], i: usize) -> Result<(), Cycle>
    requires { WalkSound t.now e.now w.now r.old 0 × (i < length (context t.now).terms) }
    ensures { SeekOutcome t.now e.now w.now r.old i result r.new }
{
    if get_at(w, W_MARK, i) == 0 {
        return Ok(());
    }
    let x = TermId(i as u32);
    if is_datatype_sort(t, sort_of(t, x)) {
        walk_watched(t, e, w, r, x)
    } else {
        Ok(())
    }
}

// A ring that is reached from the watched terms, if there is one: the walk is depth first, from the watched terms ascending.
fn constructor_graph_find_cycle(t: &[u32], e: &[u32], w: &[u32], r: &mut [u32]) -> Result<(), Cycle>
    requires { Making t.now e.now w.now × Unmet r.old }
    ensures { CycleOutcome t.now e.now w.now result r.new }
{
    for i in 0..term_count(t) {
        walk_term(t, e, w, r, i)?;
    }
    Ok(())
}

// ---- the conflict

// The place on the path behind the application that a ring leads back to; 0, the whole path, where that is not on it.
fn ring_start(r: &[u32], n: usize, x: TermId) -> usize
    requires { (ring_size ≤ length r.now) × (n ≤ max_terms) }
    ensures { RingBegins r.now n x.0 result }
{
    let app = x.0 as usize;
    for k in (0..n).rev() {
        if get_at(r, PATH_APP, k) == app {
            return k + 1;
        }
    }
    0
}

// Each edge of a ring explained, from field to application: the closing edge first, then the others from the ring's entry down.
fn acyclicity_conflict(e: &[u32], r: &[u32], ring: Cycle, out: &mut [u32])
    requires { RingAt e.now r.now ring × (answer_size ≤ length out.old) }
    ensures { RingLeaves e.now r.now ring out.new }
{
    let start = ring_start(r, ring.len, ring.app);
    clear_leaves(out);
    explain(e, ring.field, ring.app, out);
    for i in start..ring.len {
        let via = TermId(get_at(r, PATH_VIA, i) as u32);
        let app = TermId(get_at(r, PATH_APP, i) as u32);
        explain(e, via, app, out);
    }
}

// The ring rule: a conflict, or no ring.
pub fn ring(t: &[u32], e: &[u32], w: &[u32], out: &mut [u32]) -> TCheck
    requires { Ringable t.now e.now w.now out.old }
    ensures { Rings t.now e.now w.now result out.new }
{
    let mut r = [0u32; RING_SIZE];
    match constructor_graph_find_cycle(t, e, w, &mut r) {
        Ok(_) => TCheck::Sat,
        Err(found) => {
            acyclicity_conflict(e, &r, found, out);
            TCheck::Conflict
        }
    }
}
