// A script as a run answers it, and by a session kept open: one call a line, each into the output that is left.
ghost use Rattle.session.specs.Memory.Kept.{tables, KeptSound};

use session::kept::{KEPT_WORDS, LineError, close, line, open};
use session::run::{Ending, Ran, run};

// Until all lines are sent or one does not fit. The tables stay four slices: fields behind one reference are not lent to a call together.
#[tactic(auto, unfolding(session::specs::Kept::bytes_written))]
fn send_lines(
    script: &[u8],
    c: &mut [u32],
    e: &mut [u32],
    s: &mut [u32],
    k: &mut [u32],
    out: &mut [u8],
) -> Result<Ran, LineError>
    requires { KeptSound (tables c.old e.old s.old k.old) }
{
    let mut ran = Ran {
        ending: Ending::Complete,
        answered: 0,
        written: 0,
    };
    for text in script.split_inclusive(|b| *b == b'\n') {
        let text = text.strip_suffix(b"\n").unwrap_or(text);
        match line(text, c, e, s, k, &mut out[ran.written..]) {
            Ok(written) => {
                ran.answered += 1;
                ran.written += written;
            }
            Err(LineError::Full) => {
                ran.ending = Ending::Full;
                return Ok(ran);
            }
            Err(error) => return Err(error),
        }
    }
    Ok(ran)
}

// A run of the whole script.
pub fn run_whole(
    script: &[u8],
    c: &mut [u32],
    e: &mut [u32],
    s: &mut [u32],
    out: &mut [u8],
) -> Result<Ran, LineError> {
    Ok(run(script, c, e, s, out))
}

// The same line by line: a session is opened, sent the script's lines and closed. `Err` has an error that ends no run.
pub fn run_by_lines(
    script: &[u8],
    c: &mut [u32],
    e: &mut [u32],
    s: &mut [u32],
    out: &mut [u8],
) -> Result<Ran, LineError> {
    let mut kept = [7u32; KEPT_WORDS];
    if open(c, e, s, &mut kept) == Err(LineError::ShortTable) {
        return Ok(Ran {
            ending: Ending::ShortTable,
            answered: 0,
            written: 0,
        });
    }
    let ran = send_lines(script, c, e, s, &mut kept, out);
    close(c, e, s, &mut kept);
    ran
}
