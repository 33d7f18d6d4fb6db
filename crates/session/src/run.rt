// The run: questions 1, 2 and 12, the counts, and what lent memory holds at the end (specs/Run.antt, specs/Promise.antt).
ghost use Rattle.std.specs.Prelude.{◌≤◌, ◌≡◌, length};
ghost use Rattle.session.specs.Run.{result_number};
ghost use Rattle.session.specs.Promise.{ending_meaning, Runs};
ghost use Rattle.session.specs.Memory.Sessions.{beside};
ghost use Rattle.session.specs.Memory.Answers.{Printable, line_text, longest_answer};
ghost use Rattle.session.specs.Memory.Running.{TablesLong, EmptyTables, Puts, Answerable, AnswersLine, MayRun, RunsLines, MayStart, Zeroed, RunsStarted};

use crate::answer::{Answer, Refusal, line_length, write_answer};
use crate::reader::line_end;
use crate::session::{Beside, step};
use shinri_core::context as context;
use shinri_core::limits::MAX_LEVELS;
use solver::records as records;
use theory::eq_engine as engine;

// How a run ends.
#[derive(Clone, Copy, PartialEq, Eq)]
pub enum Ending {
    Complete,
    ShortTable,
    LongScript,
    Full,
}

// How a run ended, how many lines it answered, and how many bytes it wrote.
#[derive(Clone, Copy, PartialEq, Eq)]
pub struct Ran {
    pub ending: Ending,
    pub answered: usize,
    pub written: usize,
}

// Words of a work table, or more.
pub const TABLE_WORDS: usize = 16384;

pub const MAX_SCRIPT: usize = 65536;

pub const MAX_NUMBERS: usize = 17;

// Words of an answer table.
pub const ANSWER_SIZE: usize = 3324;

// The number of the question that was answered no, or 0.
impl From<Ending> for u32 {
    ghost from_gives = { λ e n. n ≡ result_number (ending_meaning e) };

    #[tactic(auto, unfolding(crate::specs::Run::result_number, crate::specs::Promise::ending_meaning))]
    fn from(e: Ending) -> u32 {
        match e {
            Ending::Complete => 0,
            Ending::ShortTable => 1,
            Ending::LongScript => 2,
            Ending::Full => 12,
        }
    }
}

// ---- the lines

// Where the answer line ends in the output, or None if it does not fit. Its length is known before its first byte is written, so an output
// that it does not fit is left as it was.
pub fn put_answer(
    a: Result<Answer, Refusal>,
    answer: &[u32],
    output: &mut [u8],
    written: usize,
) -> Option<usize>
    requires { Printable a answer.now × (written ≤ length output.old) }
    ensures { Puts result output.old written (line_text a answer.now) output.new
        × (length (line_text a answer.now) ≤ longest_answer) }
{
    if line_length(a, answer) > output.len() - written {
        return None;
    }
    Some(write_answer(a, answer, output, written))
}

// Answers a line; its answer line goes to the output at a place, if it fits. `numbers` and `answer` are lent apart: the command that was
// read borrows the one while the line is answered into the other.
pub fn answer_line(
    c: &mut [u32],
    e: &mut [u32],
    s: &mut [u32],
    kept: &mut Beside,
    line: &[u8],
    numbers: &mut [u32; MAX_NUMBERS],
    answer: &mut [u32; ANSWER_SIZE],
    output: &mut [u8],
    written: usize,
) -> Option<usize>
    requires { Answerable c.old e.old s.old (beside e.old kept.old.counts kept.old.closed) × (written ≤ length output.old) }
    ensures { AnswersLine line.now c.old e.old s.old
        (beside e.old kept.old.counts kept.old.closed) result c.new e.new s.new
        (beside e.new kept.new.counts kept.new.closed) output.old written output.new }
{
    let a = step(c, e, s, kept, line, numbers, answer);
    put_answer(a, answer, output, written)
}

// The lines in turn, until all are answered or an answer line does not fit.
fn run_lines(script: &[u8], c: &mut [u32], e: &mut [u32], s: &mut [u32], output: &mut [u8]) -> Ran
    requires { MayRun script.now c.old e.old s.old }
    ensures { RunsLines script.now output.old result output.new }
{
    let mut numbers = [0u32; MAX_NUMBERS];
    let mut answer = [0u32; ANSWER_SIZE];
    let mut kept = Beside {
        counts: [0; MAX_LEVELS],
        closed: false,
    };
    let mut at = 0;
    let mut answered = 0;
    let mut written = 0;
    // no counted index: each turn goes on behind the line it answered
    while at < script.len() {
        let end = line_end(script, at);
        let Some(next) = answer_line(
            c,
            e,
            s,
            &mut kept,
            &script[at..end],
            &mut numbers,
            &mut answer,
            output,
            written,
        ) else {
            return Ran {
                ending: Ending::Full,
                answered,
                written,
            };
        };
        written = next;
        answered += 1;
        at = end + 1;
    }
    Ran {
        ending: Ending::Complete,
        answered,
        written,
    }
}

// ---- lent memory

// Whatever the tables held, they are now those of an empty session.
pub fn clear_all(c: &mut [u32], e: &mut [u32], s: &mut [u32])
    requires { TablesLong c.old e.old s.old }
    ensures { EmptyTables c.new e.new s.new }
{
    context::clear(c);
    engine::clear(e);
    records::clear(s);
}

// The work tables are all zero at the end, also the words that no session uses.
pub fn zero_all(c: &mut [u32], e: &mut [u32], s: &mut [u32])
    ensures { Zeroed c.old e.old s.old c.new e.new s.new }
{
    c.fill(0);
    e.fill(0);
    s.fill(0);
}

// ---- the run

// Once 1 and 2 are answered yes.
fn run_started(script: &[u8], c: &mut [u32], e: &mut [u32], s: &mut [u32], output: &mut [u8]) -> Ran
    requires { MayStart script.now c.old e.old s.old }
    ensures { RunsStarted script.now c.old e.old s.old output.old result
        c.new e.new s.new output.new }
{
    clear_all(c, e, s);
    let r = run_lines(script, c, e, s, output);
    zero_all(c, e, s);
    r
}

// A no to 1 or 2 touches nothing.
pub fn run(
    script: &[u8],
    core: &mut [u32],
    theory: &mut [u32],
    solver: &mut [u32],
    output: &mut [u8],
) -> Ran
    ensures { Runs script.now core.old theory.old solver.old output.old
        result core.new theory.new solver.new output.new }
{
    if core.len() < TABLE_WORDS || theory.len() < TABLE_WORDS || solver.len() < TABLE_WORDS {
        return Ran {
            ending: Ending::ShortTable,
            answered: 0,
            written: 0,
        };
    }
    if script.len() > MAX_SCRIPT {
        return Ran {
            ending: Ending::LongScript,
            answered: 0,
            written: 0,
        };
    }
    run_started(script, core, theory, solver, output)
}
