// The calls of a session kept open for callers in other languages: a slice is a pointer and a length, a result a number, counts go behind
// references. `robinlocker_run` is in session_c.
#![tactic(auto)]

ghost use Rattle.std.specs.Prelude.{◌≡◌};
ghost use Rattle.session.specs.Kept.{Closes};
ghost use Rattle.session.specs.Library.{version};
ghost use Rattle.session.specs.Memory.Kept.{tables};
ghost use Rattle.kept.specs.Kept.{OpensBy, Replies};
ghost use Rattle.kept.specs.Library.{limit};
ghost use Rattle.kept.specs.Memory.Kept.{KeptSound};

use kept::kept::{KEPT_WORDS, close, line, open};
use session::kept::LONGEST_ANSWER;
use session::run::{MAX_NUMBERS, MAX_SCRIPT, TABLE_WORDS};
use shinri_core::limits::{
    MAX_LEVELS, MAX_PAIRS, MAX_PLACES, MAX_SORTS, MAX_SYMBOLS, MAX_TERMS, MAX_VARS,
};

#[unsafe(no_mangle)]
pub extern "C" fn robinlocker_open(
    core: &mut [u32],
    theory: &mut [u32],
    solver: &mut [u32],
    kept: &mut [u32],
) -> u32
    ensures { OpensBy (tables core.old theory.old solver.old kept.old) result
        (tables core.new theory.new solver.new kept.new) }
{
    match open(core, theory, solver, kept) {
        Ok(()) => 0,
        Err(e) => u32::from(e),
    }
}

// It asks of its caller that tables which are marked as open are as the last call left them.
#[unsafe(no_mangle)]
pub extern "C" fn robinlocker_line(
    text: &[u8],
    core: &mut [u32],
    theory: &mut [u32],
    solver: &mut [u32],
    kept: &mut [u32],
    output: &mut [u8],
    written: &mut usize,
) -> u32
    requires { KeptSound (tables core.old theory.old solver.old kept.old) }
    ensures { Replies text.now
        (tables core.old theory.old solver.old kept.old) output.old
        result written.new
        (tables core.new theory.new solver.new kept.new) output.new }
{
    match line(text, core, theory, solver, kept, output) {
        Ok(n) => {
            *written = n;
            0
        }
        Err(e) => {
            *written = 0;
            u32::from(e)
        }
    }
}

#[unsafe(no_mangle)]
pub extern "C" fn robinlocker_close(
    core: &mut [u32],
    theory: &mut [u32],
    solver: &mut [u32],
    kept: &mut [u32],
)
    ensures { Closes (tables core.old theory.old solver.old kept.old)
        (tables core.new theory.new solver.new kept.new) }
{
    close(core, theory, solver, kept);
}

// ---- what the library says of itself

#[unsafe(no_mangle)]
pub extern "C" fn robinlocker_version() -> u32
    ensures { result ≡ version }
{
    10000
}

#[unsafe(no_mangle)]
pub extern "C" fn robinlocker_limit(name: u32) -> u32
    ensures { result ≡ limit name }
{
    let limits = [
        TABLE_WORDS as u32,
        KEPT_WORDS as u32,
        MAX_SCRIPT as u32,
        LONGEST_ANSWER as u32,
        MAX_SORTS as u32,
        MAX_SYMBOLS as u32,
        MAX_TERMS as u32,
        MAX_PLACES as u32,
        MAX_PAIRS as u32,
        MAX_LEVELS as u32,
        MAX_VARS as u32,
        MAX_NUMBERS as u32,
    ];
    let i = name as usize;
    if i < limits.len() {
        return limits[i];
    }
    0
}
