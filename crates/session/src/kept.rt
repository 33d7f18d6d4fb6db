// A session kept open between calls: opened on lent tables, sent one line at a time, closed (specs/Kept.antt). A fourth table has what
// a run holds in locals.
ghost use Rattle.std.specs.Prelude.{◌≤◌, ◌≡◌, length};
ghost use Rattle.session.specs.Kept.{reply_number, error_meaning, Opens, AnswersHeld, Closes};
ghost use Rattle.session.specs.Memory.Sessions.{beside};
ghost use Rattle.session.specs.Memory.Running.{Answerable};
ghost use Rattle.session.specs.Memory.Kept.{tables, kept_words, suffice, KeptSound, Exact, TriesLine, Holding, Keeps, AnswersOpen};

use crate::run::{ANSWER_SIZE, MAX_NUMBERS, TABLE_WORDS, answer_line, clear_all, zero_all};
use crate::session::Beside;
use shinri_core::limits::MAX_LEVELS;

// Why a call did nothing.
#[derive(Clone, Copy, PartialEq, Eq)]
pub enum LineError {
    ShortTable,
    Full,
    NotOpen,
}

// The words of the fourth table: the mark of an open session, whether a `close` line was accepted, the mark counts of the records.
pub const MARK: usize = 0;

pub const CLOSED: usize = 1;

pub const COUNTS: usize = 2;

pub const KEPT_WORDS: usize = 66;

// Memory that was not opened hardly ever begins with it; zeros never do.
pub const OPEN: u32 = 1380732747;

// No answer line is longer.
pub const LONGEST_ANSWER: usize = 23562;

// The number of the question that was answered no; 100 if no session is open.
impl From<LineError> for u32 {
    ghost from_gives = { λ e n. n ≡ reply_number (error_meaning e) };

    #[tactic(auto, unfolding(crate::specs::Kept::reply_number, crate::specs::Kept::error_meaning))]
    fn from(e: LineError) -> u32 {
        match e {
            LineError::ShortTable => 1,
            LineError::Full => 12,
            LineError::NotOpen => 100,
        }
    }
}

// ---- a line on tables of a session

// The line is answered on copies of the work tables, which are taken over if the answer line fits.
fn answer_aside(
    c: &mut [u32],
    e: &mut [u32],
    s: &mut [u32],
    held: &mut Beside,
    line: &[u8],
    numbers: &mut [u32; MAX_NUMBERS],
    answer: &mut [u32; ANSWER_SIZE],
    output: &mut [u8],
) -> Option<usize>
    requires { Answerable c.old e.old s.old (beside e.old held.old.counts held.old.closed) × Exact c.old e.old s.old }
    ensures { TriesLine line.now c.old e.old s.old
        (beside e.old held.old.counts held.old.closed) result c.new e.new s.new
        (beside e.new held.new.counts held.new.closed) output.old output.new }
{
    let mut c2 = [0u32; TABLE_WORDS];
    let mut e2 = [0u32; TABLE_WORDS];
    let mut s2 = [0u32; TABLE_WORDS];
    c2.copy_from_slice(c);
    e2.copy_from_slice(e);
    s2.copy_from_slice(s);
    let n = answer_line(
        &mut c2, &mut e2, &mut s2, held, line, numbers, answer, output, 0,
    )?;
    c.copy_from_slice(&c2);
    e.copy_from_slice(&e2);
    s.copy_from_slice(&s2);
    Some(n)
}

// An output that holds any answer line needs no copies.
fn try_line(
    c: &mut [u32],
    e: &mut [u32],
    s: &mut [u32],
    held: &mut Beside,
    line: &[u8],
    output: &mut [u8],
) -> Option<usize>
    requires { Answerable c.old e.old s.old (beside e.old held.old.counts held.old.closed) × Exact c.old e.old s.old }
    ensures { TriesLine line.now c.old e.old s.old
        (beside e.old held.old.counts held.old.closed) result c.new e.new s.new
        (beside e.new held.new.counts held.new.closed) output.old output.new }
{
    let mut numbers = [0u32; MAX_NUMBERS];
    let mut answer = [0u32; ANSWER_SIZE];
    if output.len() < LONGEST_ANSWER {
        return answer_aside(c, e, s, held, line, &mut numbers, &mut answer, output);
    }
    answer_line(c, e, s, held, line, &mut numbers, &mut answer, output, 0)
}

// ---- what a session keeps beside the work tables

// The mark stays.
pub fn keep(kept: &mut [u32], counts: &[u32; MAX_LEVELS], closed: bool)
    requires { kept_words ≤ length kept.old }
    ensures { Keeps kept.old counts.now closed kept.new }
{
    kept[CLOSED] = closed as u32;
    kept[COUNTS..KEPT_WORDS].copy_from_slice(counts);
}

// A line of an open session.
fn answer_open(
    c: &mut [u32],
    e: &mut [u32],
    s: &mut [u32],
    kept: &mut [u32],
    line: &[u8],
    output: &mut [u8],
) -> Option<usize>
    requires { Holding c.old e.old s.old kept.old }
    ensures { AnswersOpen line.now c.old e.old s.old kept.old result
        c.new e.new s.new kept.new output.old output.new }
{
    let mut held = Beside {
        counts: [0; MAX_LEVELS],
        closed: kept[CLOSED] != 0,
    };
    held.counts.copy_from_slice(&kept[COUNTS..KEPT_WORDS]);
    let n = try_line(c, e, s, &mut held, line, output)?;
    keep(kept, &held.counts, held.closed);
    Some(n)
}

// ---- the calls

#[tactic(auto, unfolding(crate::specs::Memory::Kept::suffice))]
pub fn tables_suffice(core: &[u32], theory: &[u32], solver: &[u32], kept: &[u32]) -> bool
    ensures { result ≡ suffice (tables core.now theory.now solver.now kept.now) }
{
    core.len() >= TABLE_WORDS
        && theory.len() >= TABLE_WORDS
        && solver.len() >= TABLE_WORDS
        && kept.len() >= KEPT_WORDS
}

// Opens an empty session, whatever the tables hold, if they are long enough.
pub fn open(
    core: &mut [u32],
    theory: &mut [u32],
    solver: &mut [u32],
    kept: &mut [u32],
) -> Result<(), LineError>
    ensures { Opens (tables core.old theory.old solver.old kept.old) result
        (tables core.new theory.new solver.new kept.new) }
{
    if !tables_suffice(core, theory, solver, kept) {
        return Err(LineError::ShortTable);
    }
    clear_all(
        &mut core[..TABLE_WORDS],
        &mut theory[..TABLE_WORDS],
        &mut solver[..TABLE_WORDS],
    );
    kept.fill(0);
    kept[MARK] = OPEN;
    Ok(())
}

// Answers a line on tables as the call before left them, and says how many bytes it wrote. But for an answered line nothing is touched.
pub fn line(
    line: &[u8],
    core: &mut [u32],
    theory: &mut [u32],
    solver: &mut [u32],
    kept: &mut [u32],
    output: &mut [u8],
) -> Result<usize, LineError>
    requires { KeptSound (tables core.old theory.old solver.old kept.old) }
    ensures { AnswersHeld line.now
        (tables core.old theory.old solver.old kept.old) output.old result
        (tables core.new theory.new solver.new kept.new) output.new }
{
    if !tables_suffice(core, theory, solver, kept) {
        return Err(LineError::ShortTable);
    }
    if kept[MARK] != OPEN {
        return Err(LineError::NotOpen);
    }
    answer_open(
        &mut core[..TABLE_WORDS],
        &mut theory[..TABLE_WORDS],
        &mut solver[..TABLE_WORDS],
        kept,
        line,
        output,
    )
    .ok_or(LineError::Full)
}

// Whatever the tables hold, however long they are.
pub fn close(core: &mut [u32], theory: &mut [u32], solver: &mut [u32], kept: &mut [u32])
    ensures { Closes (tables core.old theory.old solver.old kept.old)
        (tables core.new theory.new solver.new kept.new) }
{
    zero_all(core, theory, solver);
    kept.fill(0);
}
