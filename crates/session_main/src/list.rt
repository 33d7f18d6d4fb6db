// The records of the fixed list.
ghost use Rattle.std.specs.Prelude.{◌≤◌};
ghost use Rattle.session_main.specs.declared.list.TheConstants.{MAX_BYTES};

use session::run::Ending;
use std::io::Read;

// A head says no greater number, so no script is longer, nor its answers.
pub const MAX_BYTES: usize = 99999;

// What a run must answer. A record may have a number that is no run's result: no ending is that.
#[derive(Clone, Copy)]
pub struct Want {
    pub ending: Option<Ending>,
    pub answered: usize,
    pub written: usize,
}

// What a record's head says: how long its script is, and what a run of it must answer.
#[derive(Clone, Copy)]
pub struct Head {
    pub script: usize,
    pub want: Want,
    ghost few_bytes: { script ≤ MAX_BYTES },
    ghost few_answered: { want.answered ≤ MAX_BYTES },
    ghost few_written: { want.written ≤ MAX_BYTES },
}

// A record's script and its answers, each at the start.
#[derive(Drop)]
pub struct Texts {
    pub script: [u8; MAX_BYTES],
    pub answers: [u8; MAX_BYTES],
}

impl Texts {
    pub fn new() -> Self {
        Texts {
            script: [0; MAX_BYTES],
            answers: [0; MAX_BYTES],
        }
    }
}

// The last four digits of n and the digit b, whatever byte that is.
fn with_digit(n: usize, b: u8) -> usize
    ensures { result ≤ MAX_BYTES }
{
    n % 10000 * 10 + b as usize % 16 % 10
}

// The number of five digits.
fn number(digits: &[u8]) -> usize
    ensures { result ≤ MAX_BYTES }
{
    let mut n = 0;
    for b in digits {
        n = with_digit(n, *b);
    }
    n
}

// How a run ended whose result is a number.
fn ending_of(number: usize) -> Option<Ending> {
    match number {
        0 => Some(Ending::Complete),
        1 => Some(Ending::ShortTable),
        2 => Some(Ending::LongScript),
        12 => Some(Ending::Full),
        _ => None,
    }
}

fn read_head<F: Read>(from: &mut F) -> Option<Head> {
    let mut head = [0u8; 24];
    from.read_exact(&mut head).ok()?;
    let want = Want {
        ending: ending_of(number(&head[12..17])),
        answered: number(&head[18..23]),
        written: number(&head[6..11]),
    };
    Some(Head {
        script: number(&head[..5]),
        want,
    })
}

// Reads the next record. One that is cut off counts as none, and the tally tells.
pub fn read_record<F: Read>(from: &mut F, texts: &mut Texts) -> Option<Head> {
    let head = read_head(from)?;
    from.read_exact(&mut texts.script[..head.script]).ok()?;
    from.read_exact(&mut texts.answers[..head.want.written])
        .ok()?;
    Some(head)
}
