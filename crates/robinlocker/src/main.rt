// Reads a script on standard input and prints the answer lines on standard output. Standard error is empty if all was read, answered
// and written; else a line there says what went wrong, with the number of the question that the run answered no.
#![tactic(auto)]

ghost use Rattle.std.specs.Prelude.{◌≡◌, ◌≤◌, length, take};

use failures::words;
use session::run::{Ending, Ran, run};
use std::io;
use std::io::Read;

// How many bytes were read, and what a read after them failed with, if one did: the bytes are counted either way, so no Result stands here.
#[derive(Drop)]
struct Input {
    bytes: usize,
    failed: Option<io::Error>,
}

// Reads until the input ends, the buffer is full or a read fails. A read gives any number of bytes, so no `for` counts the place.
fn read_script<R: Read>(from: &mut R, buf: &mut [u8]) -> Input
    ensures within { result.bytes ≤ length buf.new }
    ensures count { result.bytes ≡ length (take result.bytes buf.new) }
{
    let mut n = 0;
    while n < buf.len() {
        match from.read(&mut buf[n..]) {
            Ok(0) => break,
            Ok(more) => n += more,
            Err(e) => {
                return Input {
                    bytes: n,
                    failed: Some(e),
                };
            }
        }
    }
    Input {
        bytes: n,
        failed: None,
    }
}

// How a run ended, in words.
fn question(ending: Ending) -> &'static str {
    match ending {
        Ending::Complete => "the run went to the end",
        Ending::ShortTable => "a work table has fewer than 16384 words",
        Ending::LongScript => "the script is longer than 65536 bytes",
        Ending::Full => "the answer line does not fit the output left",
    }
}

// One line: the result, its question, the lines answered and the bytes written. What cannot be said on standard error is let go.
fn say_ending<R: Eprint>(rt: &R, ran: Ran) {
    let Ran {
        ending,
        answered,
        written,
    } = ran;
    let number = u32::from(ending);
    let question = question(ending);
    let _ = eprintln!(rt;
        "robinlocker: {number}: {question}; {answered} lines answered, {written} bytes written"
    );
}

// One line: what failed, and why.
fn say_failure<R: Eprint + Alloc>(rt: &R, what: &str, error: &io::Error) -> io::Result<()> {
    let text = format!(in rt.alloc(); "{error}")?;
    let why = words(text.as_str());
    eprintln!(rt; "robinlocker: {what}: {why}")
}

// Prints the first bytes of the output.
fn print<R: Print>(rt: &R, output: &[u8], written: usize) -> io::Result<()>
    requires { written ≤ length output.now }
{
    rt.write_all(&output[..written])
}

// Lends three work tables and the output, and prints what the run wrote.
#[tactic(auto, unfolding(session::specs::Run::output_after))]
fn answer<R: Print + Eprint + Alloc>(rt: &R, script: &[u8]) {
    let mut core = [0u32; 16384];
    let mut theory = [0u32; 16384];
    let mut solver = [0u32; 16384];
    let mut output = [0u8; 65536];
    let ran = run(script, &mut core, &mut theory, &mut solver, &mut output);
    if let Err(e) = print(rt, &output, ran.written) {
        let _ = say_failure(rt, "standard output", &e);
    }
    if ran.ending != Ending::Complete {
        say_ending(rt, ran);
    }
}

// A byte more than a script may have tells a longer one.
fn main(rt: HostRuntime) {
    let mut script = [0u8; 65537];
    let input = read_script(&mut rt.stdin(), &mut script);
    if let Some(e) = &input.failed {
        let _ = say_failure(&rt, "standard input", e);
        return;
    }
    let n = input.bytes;
    answer(&rt, &script[..n]);
}
