// A session kept open between calls as session::kept keeps one, except that the room for a call is lent too, behind what the fourth table
// keeps (specs/Kept.antt). It is closed by session's `close`, whatever the lengths of its tables.
ghost use Rattle.std.specs.Prelude.{◌≡◌, ◌≤◌, length};
ghost use Rattle.session.specs.Memory.Sessions.{beside};
ghost use Rattle.session.specs.Memory.Running.{Answerable, AnswersLine};
ghost use Rattle.session.specs.Memory.Kept.{tables, Exact, TriesLine};
ghost use Rattle.kept.specs.Kept.{Opens, AnswersHeld};
ghost use Rattle.kept.specs.Memory.Kept.{kept_words, KeptSound, AnswerRoom, SameKept, Saves, Saved, Triable, Holding, AnswersOpen};

use session::kept as session_kept;
pub use session::kept::{LONGEST_ANSWER, LineError, close};
use session::kept::{CLOSED, COUNTS, MARK, OPEN, keep, tables_suffice};
use session::run::{ANSWER_SIZE, MAX_NUMBERS, TABLE_WORDS, put_answer};
use session::session::{Beside, step};
use shinri_core::limits::MAX_LEVELS;

// The words of the fourth table. Those below ANSWER are session's fourth table. Behind them is room for a call: its answer table, and copies
// of the work tables.
const ANSWER: usize = session_kept::KEPT_WORDS;

const CORE: usize = ANSWER + ANSWER_SIZE;

const THEORY: usize = CORE + TABLE_WORDS;

const SOLVER: usize = THEORY + TABLE_WORDS;

pub const KEPT_WORDS: usize = SOLVER + TABLE_WORDS;

// ---- a line on tables of a session

// Answers a line; its answer line goes to the start of the output, if it fits. As session::run's, but its answer table is lent.
fn answer_line(
    c: &mut [u32],
    e: &mut [u32],
    s: &mut [u32],
    held: &mut Beside,
    line: &[u8],
    kept: &mut [u32],
    output: &mut [u8],
) -> Option<usize>
    requires { Answerable c.old e.old s.old (beside e.old held.old.counts held.old.closed) × (kept_words ≤ length kept.old) }
    ensures { AnswersLine line.now c.old e.old s.old
        (beside e.old held.old.counts held.old.closed) result c.new e.new s.new
        (beside e.new held.new.counts held.new.closed) output.old 0 output.new
        × AnswerRoom kept.old kept.new }
{
    let mut numbers = [0u32; MAX_NUMBERS];
    let a = step(c, e, s, held, line, &mut numbers, &mut kept[ANSWER..CORE]);
    put_answer(a, &kept[ANSWER..CORE], output, 0)
}

// One slice over another. (`copy_from_slice` would need C's `memmove`.)
fn copy(from: &[u32], to: &mut [u32])
    requires { length from.now ≡ length to.old }
    ensures { to.new ≡ from.now }
{
    for (i, word) in from.iter().enumerate() {
        to[i] = *word;
    }
}

// Copies of the work tables, behind the answer table.
fn save(c: &[u32], e: &[u32], s: &[u32], kept: &mut [u32])
    requires { Exact c.now e.now s.now × (kept_words ≤ length kept.old) }
    ensures { Saves c.now e.now s.now kept.old kept.new }
{
    copy(c, &mut kept[CORE..THEORY]);
    copy(e, &mut kept[THEORY..SOLVER]);
    copy(s, &mut kept[SOLVER..KEPT_WORDS]);
}

fn restore(kept: &[u32], c: &mut [u32], e: &mut [u32], s: &mut [u32])
    requires { Exact c.old e.old s.old × (kept_words ≤ length kept.now) }
    ensures { Saved kept.now c.new e.new s.new }
{
    copy(&kept[CORE..THEORY], c);
    copy(&kept[THEORY..SOLVER], e);
    copy(&kept[SOLVER..KEPT_WORDS], s);
}

// A line whose answer line does not fit leaves the work tables as they were. session::kept works on copies in locals instead.
fn answer_or_restore(
    c: &mut [u32],
    e: &mut [u32],
    s: &mut [u32],
    held: &mut Beside,
    line: &[u8],
    kept: &mut [u32],
    output: &mut [u8],
) -> Option<usize>
    requires { Triable c.old e.old s.old (beside e.old held.old.counts held.old.closed) kept.old }
    ensures { TriesLine line.now c.old e.old s.old
        (beside e.old held.old.counts held.old.closed) result c.new e.new s.new
        (beside e.new held.new.counts held.new.closed) output.old output.new
        × SameKept kept.old kept.new }
{
    save(c, e, s, kept);
    let placed = answer_line(c, e, s, held, line, kept, output);
    if placed.is_none() {
        restore(kept, c, e, s);
    }
    placed
}

// An output that holds any answer line needs no copies.
fn try_line(
    c: &mut [u32],
    e: &mut [u32],
    s: &mut [u32],
    held: &mut Beside,
    line: &[u8],
    kept: &mut [u32],
    output: &mut [u8],
) -> Option<usize>
    requires { Triable c.old e.old s.old (beside e.old held.old.counts held.old.closed) kept.old }
    ensures { TriesLine line.now c.old e.old s.old
        (beside e.old held.old.counts held.old.closed) result c.new e.new s.new
        (beside e.new held.new.counts held.new.closed) output.old output.new
        × SameKept kept.old kept.new }
{
    if output.len() >= LONGEST_ANSWER {
        return answer_line(c, e, s, held, line, kept, output);
    }
    answer_or_restore(c, e, s, held, line, kept, output)
}

// A line of an open session.
fn answer_open(
    c: &mut [u32],
    e: &mut [u32],
    s: &mut [u32],
    kept: &mut [u32],
    line: &[u8],
    output: &mut [u8],
) -> Option<usize>
    requires { Holding c.old e.old s.old kept.old }
    ensures { AnswersOpen line.now c.old e.old s.old kept.old result
        c.new e.new s.new kept.new output.old output.new }
{
    let mut held = Beside {
        counts: [0; MAX_LEVELS],
        closed: kept[CLOSED] != 0,
    };
    held.counts.copy_from_slice(&kept[COUNTS..ANSWER]);
    let n = try_line(c, e, s, &mut held, line, kept, output)?;
    keep(kept, &held.counts, held.closed);
    Some(n)
}

// ---- the calls

// Opens an empty session, whatever the tables hold, if they are long enough.
pub fn open(
    core: &mut [u32],
    theory: &mut [u32],
    solver: &mut [u32],
    kept: &mut [u32],
) -> Result<(), LineError>
    ensures { Opens (tables core.old theory.old solver.old kept.old) result
        (tables core.new theory.new solver.new kept.new) }
{
    if kept.len() < KEPT_WORDS {
        return Err(LineError::ShortTable);
    }
    session_kept::open(core, theory, solver, kept)
}

// Answers a line on tables as the call before left them, and says how many bytes it wrote. Unless it is answered, the work tables and what
// the fourth table keeps are as they were; tables that are too short or not open are untouched.
pub fn line(
    line: &[u8],
    core: &mut [u32],
    theory: &mut [u32],
    solver: &mut [u32],
    kept: &mut [u32],
    output: &mut [u8],
) -> Result<usize, LineError>
    requires { KeptSound (tables core.old theory.old solver.old kept.old) }
    ensures { AnswersHeld line.now
        (tables core.old theory.old solver.old kept.old) output.old result
        (tables core.new theory.new solver.new kept.new) output.new }
{
    if kept.len() < KEPT_WORDS || !tables_suffice(core, theory, solver, kept) {
        return Err(LineError::ShortTable);
    }
    if kept[MARK] != OPEN {
        return Err(LineError::NotOpen);
    }
    answer_open(
        &mut core[..TABLE_WORDS],
        &mut theory[..TABLE_WORDS],
        &mut solver[..TABLE_WORDS],
        kept,
        line,
        output,
    )
    .ok_or(LineError::Full)
}
