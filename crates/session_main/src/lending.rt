// What is lent to a run.
ghost use Rattle.std.specs.Prelude.{◌≡◌, ◌≤◌, ◌⊎◌, length};
ghost use Rattle.session_main.specs.Lending.{Fits};

use crate::list::{Head, MAX_BYTES, Want};
use session::run::Ending;

// The byte that lent output is full of before a run.
pub const OLD: u8 = b'#';

// No table is lent more words.
pub const MAX_WORDS: usize = 16640;

// How much is lent of the script, of the three tables and of the output, the word that the tables are full of before, and what the run
// must answer.
#[derive(Clone, Copy)]
pub struct Lent {
    pub script: usize,
    pub core: usize,
    pub theory: usize,
    pub solver: usize,
    pub output: usize,
    pub word: u32,
    pub want: Want,
}

// The tables and the output that are lent from.
#[derive(Drop)]
pub struct Memory {
    pub core: [u32; MAX_WORDS],
    pub theory: [u32; MAX_WORDS],
    pub solver: [u32; MAX_WORDS],
    pub output: [u8; MAX_BYTES],
}

impl Memory {
    pub fn new() -> Self {
        Memory {
            core: [0; MAX_WORDS],
            theory: [0; MAX_WORDS],
            solver: [0; MAX_WORDS],
            output: [0; MAX_BYTES],
        }
    }

    // Fills what is lent.
    pub fn fill(&mut self, lent: Lent)
        requires { Fits lent }
    {
        self.core[..lent.core].fill(lent.word);
        self.theory[..lent.theory].fill(lent.word);
        self.solver[..lent.solver].fill(lent.word);
        self.output[..lent.output].fill(OLD);
    }
}

// The place where the last line begins of answers, which end in LF.
pub fn last_line(answers: &[u8]) -> usize
    ensures { result ≤ length answers.now }
{
    let before = &answers[..answers.len().saturating_sub(1)];
    match before.iter().rposition(|b| *b == b'\n') {
        Some(i) => i + 1,
        None => 0,
    }
}

// A run that answers no to question 1 or 2.
fn refused(ending: Ending) -> Want
    ensures { result.written ≡ 0 }
{
    Want {
        ending: Some(ending),
        answered: 0,
        written: 0,
    }
}

// With an output that is too short for the answers: so many lines are answered by so many bytes, unless no line has an answer.
fn cut_short(want: Want, answered: usize, written: usize) -> Want
    ensures { (result.written ≡ want.written) ⊎ (result.written ≡ written) }
{
    if want.answered == 0 {
        return want;
    }
    Want {
        ending: Some(Ending::Full),
        answered,
        written,
    }
}

// The k-th lending of a script whose last answer line begins at a place. 0: as the program lends. 1: longer tables, of other words,
// and just enough output. 2: a byte less output. 3: no output. 4 to 6: a word too few in one table. 7: a script of a byte too many.
// 8: the same, and a table of no words. A difference is said with this number, so it is no enum.
pub fn lent_by(k: usize, head: Head, last: usize) -> Lent
    requires { last ≤ head.want.written }
    ensures { Fits result }
{
    let want = head.want;
    let usual = Lent {
        script: head.script,
        core: 16384,
        theory: 16384,
        solver: 16384,
        output: 65536,
        word: 7,
        want,
    };
    match k {
        0 => Lent { word: 0, ..usual },
        1 => Lent {
            core: 16640,
            theory: 16640,
            solver: 16640,
            output: want.written,
            word: 4294967295,
            ..usual
        },
        2 => Lent {
            theory: 16385,
            solver: 16640,
            output: want.written.saturating_sub(1),
            want: cut_short(want, want.answered.saturating_sub(1), last),
            ..usual
        },
        3 => Lent {
            output: 0,
            want: cut_short(want, 0, 0),
            ..usual
        },
        4 => Lent {
            core: 16383,
            solver: 16640,
            want: refused(Ending::ShortTable),
            ..usual
        },
        5 => Lent {
            theory: 16383,
            solver: 16640,
            output: want.written,
            word: 0,
            want: refused(Ending::ShortTable),
            ..usual
        },
        6 => Lent {
            core: 16640,
            solver: 16383,
            output: 0,
            want: refused(Ending::ShortTable),
            ..usual
        },
        7 => Lent {
            script: 65537,
            theory: 16640,
            want: refused(Ending::LongScript),
            ..usual
        },
        _ => Lent {
            script: 65537,
            core: 16640,
            theory: 16640,
            solver: 0,
            want: refused(Ending::ShortTable),
            ..usual
        },
    }
}
