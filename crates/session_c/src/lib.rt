// The library for callers in other languages: a slice is a pointer and a length, a result a number, counts go behind references.
// include/robinlocker.h says the same to callers in C.
#![tactic(auto)]

ghost use Rattle.std.specs.Prelude.{◌≡◌};
ghost use Rattle.session.specs.Promise.{Reports};
ghost use Rattle.session.specs.Kept.{OpensBy, Replies, Closes};
ghost use Rattle.session.specs.Library.{version, limit};
ghost use Rattle.session.specs.Memory.Kept.{tables, KeptSound};

use session::kept::{KEPT_WORDS, LONGEST_ANSWER, close, line, open};
use session::run::{MAX_NUMBERS, MAX_SCRIPT, TABLE_WORDS, run};
use shinri_core::limits::{
    MAX_LEVELS, MAX_PAIRS, MAX_PLACES, MAX_SORTS, MAX_SYMBOLS, MAX_TERMS, MAX_VARS,
};

// Like `run` it asks nothing of its caller, and promises the same.
#[unsafe(no_mangle)]
pub extern "C" fn robinlocker_run(
    script: &[u8],
    core: &mut [u32],
    theory: &mut [u32],
    solver: &mut [u32],
    output: &mut [u8],
    answered: &mut usize,
    written: &mut usize,
) -> u32
    ensures { Reports script.now core.old theory.old solver.old output.old
        result answered.new written.new
        core.new theory.new solver.new output.new }
{
    let ran = run(script, core, theory, solver, output);
    *answered = ran.answered;
    *written = ran.written;
    u32::from(ran.ending)
}

#[unsafe(no_mangle)]
pub extern "C" fn robinlocker_open(
    core: &mut [u32],
    theory: &mut [u32],
    solver: &mut [u32],
    kept: &mut [u32],
) -> u32
    ensures { OpensBy (tables core.old theory.old solver.old kept.old) result
        (tables core.new theory.new solver.new kept.new) }
{
    match open(core, theory, solver, kept) {
        Ok(()) => 0,
        Err(e) => u32::from(e),
    }
}

// It asks of its caller that tables which are marked as open are as the last call left them.
#[unsafe(no_mangle)]
pub extern "C" fn robinlocker_line(
    text: &[u8],
    core: &mut [u32],
    theory: &mut [u32],
    solver: &mut [u32],
    kept: &mut [u32],
    output: &mut [u8],
    written: &mut usize,
) -> u32
    requires { KeptSound (tables core.old theory.old solver.old kept.old) }
    ensures { Replies text.now
        (tables core.old theory.old solver.old kept.old) output.old
        result written.new
        (tables core.new theory.new solver.new kept.new) output.new }
{
    match line(text, core, theory, solver, kept, output) {
        Ok(n) => {
            *written = n;
            0
        }
        Err(e) => {
            *written = 0;
            u32::from(e)
        }
    }
}

#[unsafe(no_mangle)]
pub extern "C" fn robinlocker_close(
    core: &mut [u32],
    theory: &mut [u32],
    solver: &mut [u32],
    kept: &mut [u32],
)
    ensures { Closes (tables core.old theory.old solver.old kept.old)
        (tables core.new theory.new solver.new kept.new) }
{
    close(core, theory, solver, kept);
}

// ---- what the library says of itself

#[unsafe(no_mangle)]
pub extern "C" fn robinlocker_version() -> u32
    ensures { result ≡ version }
{
    10000
}

#[unsafe(no_mangle)]
pub extern "C" fn robinlocker_limit(name: u32) -> u32
    ensures { result ≡ limit name }
{
    let limits = [
        TABLE_WORDS as u32,
        KEPT_WORDS as u32,
        MAX_SCRIPT as u32,
        LONGEST_ANSWER as u32,
        MAX_SORTS as u32,
        MAX_SYMBOLS as u32,
        MAX_TERMS as u32,
        MAX_PLACES as u32,
        MAX_PAIRS as u32,
        MAX_LEVELS as u32,
        MAX_VARS as u32,
        MAX_NUMBERS as u32,
    ];
    let i = name as usize;
    if i < limits.len() {
        return limits[i];
    }
    0
}
