// Runs each script of the fixed list on lent memory of nine sizes and contents, whole and line by line, and compares all that a run answers
// and leaves with what the list has (harness/fixed/README.md). Prints how much was compared, and the first difference if there is one. The
// list begins with the examples of the scope document.
#![tactic(auto)]

mod compare;
mod lending;
mod lines;
mod list;

ghost use Rattle.session_main.specs.Lending.{Fits};

use crate::compare::{Difference, compare};
use crate::lending::{Lent, MAX_WORDS, Memory, last_line, lent_by};
use crate::lines::{run_by_lines, run_whole};
use crate::list::{Head, MAX_BYTES, Texts, read_record};
use failures::words;
use session::kept::LineError;
use session::run::{Ending, Ran};
use std::fs::File;
use std::io::Read;
use std::{fmt, io};

// No list has more.
const MAX_SCRIPTS: usize = 100000;

// Where a difference was found first: the script's place in the list, and the lending.
#[derive(Clone, Copy)]
struct Failure {
    place: usize,
    lending: usize,
    difference: Difference,
}

// What was compared.
#[derive(Clone, Copy)]
struct Tally {
    scripts: usize,
    lines: usize,
    bytes: usize,
}

impl fmt::Display for Failure {
    fn fmt<W: fmt::Write>(&self, f: &mut fmt::Formatter<W>) -> fmt::Result {
        write!(
            f,
            "script {}, lending {}: {}",
            self.place, self.lending, self.difference
        )
    }
}

impl fmt::Display for Tally {
    fn fmt<W: fmt::Write>(&self, f: &mut fmt::Formatter<W>) -> fmt::Result {
        write!(
            f,
            "scripts without a difference {}, their lines {}, their bytes of answers {}",
            self.scripts, self.lines, self.bytes
        )
    }
}

// Lends as much of each as a lending says.
fn lend<F>(
    way: F,
    script: &[u8; MAX_BYTES],
    lent: Lent,
    core: &mut [u32; MAX_WORDS],
    theory: &mut [u32; MAX_WORDS],
    solver: &mut [u32; MAX_WORDS],
    output: &mut [u8; MAX_BYTES],
) -> Result<Ran, LineError>
where
    F: Fn(&[u8], &mut [u32], &mut [u32], &mut [u32], &mut [u8]) -> Result<Ran, LineError> + Drop,
    requires callable { F.IsAlwaysCallable way }
    requires fits { Fits lent }
{
    way(
        &script[..lent.script],
        &mut core[..lent.core],
        &mut theory[..lent.theory],
        &mut solver[..lent.solver],
        &mut output[..lent.output],
    )
}

// Fills what is lent, runs, and compares.
fn try_lent<F>(way: F, texts: &Texts, lent: Lent, memory: &mut Memory) -> Result<(), Difference>
where
    F: Fn(&[u8], &mut [u32], &mut [u32], &mut [u32], &mut [u8]) -> Result<Ran, LineError> + Drop,
    requires callable { F.IsAlwaysCallable way }
    requires fits { Fits lent }
{
    memory.fill(lent);
    let Memory {
        core,
        theory,
        solver,
        output,
    } = memory;
    match lend(way, &texts.script, lent, core, theory, solver, output) {
        Ok(ran) => compare(ran, lent, &texts.answers, memory),
        Err(error) => Err(Difference::Result(u32::from(error))),
    }
}

// Whole and line by line; question 2 is asked of whole scripts alone.
fn try_both(texts: &Texts, lent: Lent, memory: &mut Memory) -> Result<(), Difference>
    requires { Fits lent }
{
    try_lent(run_whole, texts, lent, memory)?;
    if lent.want.ending == Some(Ending::LongScript) {
        return Ok(());
    }
    try_lent(run_by_lines, texts, lent, memory)
}

// Each of the first four lendings, then one of the five that are refused at once, in turn. Stops at the first difference.
fn try_script(place: usize, texts: &Texts, head: Head, memory: &mut Memory) -> Result<(), Failure> {
    let last = last_line(&texts.answers[..head.want.written]);
    for lending in [0, 1, 2, 3, 4 + place % 5] {
        let lent = lent_by(lending, head, last);
        try_both(texts, lent, memory).map_err(|difference| Failure {
            place,
            lending,
            difference,
        })?;
    }
    Ok(())
}

// Tries one script after the other, up to the list's end or a difference, which is said. What cannot be said is let go.
fn try_list<R: Print, F: Read>(rt: &R, from: &mut F) -> Tally {
    let mut texts = Texts::new();
    let mut memory = Memory::new();
    let mut tally = Tally {
        scripts: 0,
        lines: 0,
        bytes: 0,
    };
    for place in 0..MAX_SCRIPTS {
        let Some(head) = read_record(from, &mut texts) else {
            break;
        };
        if let Err(failure) = try_script(place, &texts, head, &mut memory) {
            let _ = println!(rt; "{failure}");
            break;
        }
        tally.scripts += 1;
        tally.lines += head.want.answered;
        tally.bytes += head.want.written;
    }
    tally
}

// One line: the list, and why it cannot be opened.
fn say_failure<R: Eprint + Alloc>(rt: &R, error: &io::Error) -> io::Result<()> {
    let text = format!(in rt.alloc(); "{error}")?;
    let why = words(text.as_str());
    eprintln!(rt; "list: {why}")
}

fn main(rt: HostRuntime) {
    match File::open(&rt, "list") {
        Ok(mut list) => {
            let tally = try_list(&rt, &mut list);
            let _ = println!(rt; "{tally}");
        }
        Err(e) => {
            let _ = say_failure(&rt, &e);
        }
    }
}
