// What a run answered and left beside what was wanted.
ghost use Rattle.std.specs.Prelude.{◌≤◌, ◌<◌, length, IfSome};
ghost use Rattle.session_main.specs.Lending.{Fits};
ghost use Rattle.session_main.specs.declared.list.TheConstants.{MAX_BYTES};

use crate::lending::{Lent, Memory, OLD};
use crate::list::{MAX_BYTES, Want};
use session::run::{Ending, Ran};
use std::fmt;

// The first difference: a number that the run answered, or a place of lent memory.
#[derive(Clone, Copy)]
pub enum Difference {
    Result(u32),
    Answered(usize),
    Written(usize),
    Answers(usize),
    OutputPast(usize),
    Core(usize),
    Theory(usize),
    Solver(usize),
}

impl fmt::Display for Difference {
    fn fmt<W: fmt::Write>(&self, f: &mut fmt::Formatter<W>) -> fmt::Result {
        match *self {
            Difference::Result(n) => write!(f, "the result is {n}"),
            Difference::Answered(n) => write!(f, "lines answered are {n}"),
            Difference::Written(n) => write!(f, "bytes written are {n}"),
            Difference::Answers(i) => write!(f, "the answers from byte {i}"),
            Difference::OutputPast(i) => write!(f, "the output past the answers at byte {i}"),
            Difference::Core(i) => write!(f, "the table of core at word {i}"),
            Difference::Theory(i) => write!(f, "the table of theory at word {i}"),
            Difference::Solver(i) => write!(f, "the table of solver at word {i}"),
        }
    }
}

fn compare_numbers(ran: Ran, want: Want) -> Result<(), Difference> {
    if Some(ran.ending) != want.ending {
        return Err(Difference::Result(u32::from(ran.ending)));
    }
    if ran.answered != want.answered {
        return Err(Difference::Answered(ran.answered));
    }
    if ran.written != want.written {
        return Err(Difference::Written(ran.written));
    }
    Ok(())
}

// The first place of another value.
fn other<T: PartialEq>(xs: &[T], x: &T) -> Option<usize>
    ensures { IfSome result (λ i. i < length xs.now) }
{
    xs.iter().position(|y| y != x)
}

// The first place at which two stretches differ, or the length of the shorter.
fn first_unlike(a: &[u8], b: &[u8]) -> usize {
    let unlike = a.iter().zip(b).position(|(x, y)| x != y);
    unlike.unwrap_or(a.len().min(b.len()))
}

fn compare_output(output: &[u8], answers: &[u8]) -> Result<(), Difference>
    requires { length output.now ≤ MAX_BYTES }
{
    let Some(rest) = output.strip_prefix(answers) else {
        return Err(Difference::Answers(first_unlike(output, answers)));
    };
    match other(rest, &OLD) {
        Some(i) => Err(Difference::OutputPast(answers.len() + i)),
        None => Ok(()),
    }
}

// A table holds one word everywhere.
fn compare_tables(m: &Memory, lent: Lent, word: u32) -> Result<(), Difference>
    requires { Fits lent }
{
    if let Some(i) = other(&m.core[..lent.core], &word) {
        return Err(Difference::Core(i));
    }
    if let Some(i) = other(&m.theory[..lent.theory], &word) {
        return Err(Difference::Theory(i));
    }
    if let Some(i) = other(&m.solver[..lent.solver], &word) {
        return Err(Difference::Solver(i));
    }
    Ok(())
}

// The word that tables full of w hold after a run.
fn word_after(ending: Option<Ending>, w: u32) -> u32 {
    match ending {
        Some(Ending::ShortTable | Ending::LongScript) => w,
        _ => 0,
    }
}

// What differs first. The answers wanted are the first bytes of `answers`.
pub fn compare(
    ran: Ran,
    lent: Lent,
    answers: &[u8; MAX_BYTES],
    m: &Memory,
) -> Result<(), Difference>
    requires { Fits lent }
{
    let want = lent.want;
    compare_numbers(ran, want)?;
    compare_output(&m.output[..lent.output], &answers[..want.written])?;
    compare_tables(m, lent, word_after(want.ending, lent.word))
}
