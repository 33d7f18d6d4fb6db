// The answers of a check, and the answer table of a split (specs/Memory/Answer.antt).
ghost use Rattle.std.specs.Prelude.{◌≡◌, ◌≤◌, ◌<◌, length, get_or};
ghost use Rattle.shinri_core.specs.Limits.{max_symbols};
ghost use Rattle.theory.specs.Memory.Answer.{answer_size};
ghost use Rattle.solver.specs.Rules.{NoPhase};
ghost use Rattle.solver.specs.Memory.Answer.{split_atoms, split_guard, split_phases, SplitSound, phase_meaning, guard_meaning, guarded, LemmaWritten, SplitCleared, TesterRoom, TesterPushed};

use shinri_core::ids::{Lit, TermId};
use shinri_core::table::{get_at, put_at};

// The kind of an answer; the leaves of a conflict and the atoms, guards and phases of a split stand in the answer table.
#[derive(Clone, Copy, PartialEq, Eq, Debug)]
pub enum TCheck {
    Sat,
    Conflict,
    Split,
    Unknown,
}

// The preferred phase of a split atom. The number of a phase is its word in the answer table.
#[derive(Clone, Copy, PartialEq, Eq, Debug)]
pub enum Phase {
    NoPhase = 0,
    Positive = 1,
}

// ---- the regions of a split

// How many atoms, whether there is a guard, how many phases, the guard's literal.
const COUNTS: usize = 0;

const ATOMS: usize = 0;

const GUARDED: usize = 1;

const PHASES: usize = 2;

const GUARD: usize = 3;

// The atoms; for each phase 1 or 0.
const ATOM: usize = 64;

const PHASE: usize = 576;

// ---- reading a split

pub fn atom_count(out: &[u32]) -> usize
    requires { SplitSound out.now }
    ensures { (result ≡ length (split_atoms out.now)) × (result ≤ max_symbols) }
{
    get_at(out, COUNTS, ATOMS)
}

pub fn split_atom(out: &[u32], i: usize) -> TermId
    requires { SplitSound out.now × (i < length (split_atoms out.now)) }
    ensures { result.0 ≡ get_or (split_atoms out.now) i 0 }
{
    TermId(get_at(out, ATOM, i) as u32)
}

// The literal that guards the split, if any.
pub fn split_guard(out: &[u32]) -> Option<Lit>
    requires { SplitSound out.now }
    ensures { guard_meaning result ≡ split_guard out.now }
{
    if get_at(out, COUNTS, GUARDED) == 0 {
        return None;
    }
    Some(Lit(get_at(out, COUNTS, GUARD) as u32))
}

pub fn phase_count(out: &[u32]) -> usize
    requires { SplitSound out.now }
    ensures { (result ≡ length (split_phases out.now)) × (result ≤ max_symbols) }
{
    get_at(out, COUNTS, PHASES)
}

pub fn split_phase(out: &[u32], i: usize) -> Phase
    requires { SplitSound out.now × (i < length (split_phases out.now)) }
    ensures { phase_meaning result ≡ get_or (split_phases out.now) i NoPhase }
{
    if get_at(out, PHASE, i) == 0 {
        return Phase::NoPhase;
    }
    Phase::Positive
}

// ---- writing a split

fn write_guard(out: &mut [u32], g: Option<Lit>)
    requires { answer_size ≤ length out.old }
    ensures { out.new ≡ guarded out.old g }
{
    match g {
        Some(l) => {
            put_at(out, COUNTS, GUARDED, 1);
            put_at(out, COUNTS, GUARD, l.0 as usize);
        }
        None => put_at(out, COUNTS, GUARDED, 0),
    }
}

// One atom under a guard, without phases.
pub fn write_lemma(out: &mut [u32], x: TermId, g: Option<Lit>)
    requires { answer_size ≤ length out.old }
    ensures { LemmaWritten x.0 g out.new }
{
    put_at(out, COUNTS, ATOMS, 1);
    put_at(out, ATOM, 0, x.0 as usize);
    put_at(out, COUNTS, PHASES, 0);
    write_guard(out, g);
}

// No atom, no guard, no phase.
pub fn clear_split(out: &mut [u32])
    requires { answer_size ≤ length out.old }
    ensures { SplitCleared out.new }
{
    put_at(out, COUNTS, ATOMS, 0);
    put_at(out, COUNTS, GUARDED, 0);
    put_at(out, COUNTS, PHASES, 0);
}

// One more atom with its phase.
pub fn push_tester(out: &mut [u32], x: TermId, p: Phase)
    requires { TesterRoom out.old }
    ensures { TesterPushed out.old x.0 (phase_meaning p) out.new }
{
    let n = get_at(out, COUNTS, ATOMS);
    put_at(out, ATOM, n, x.0 as usize);
    put_at(out, COUNTS, ATOMS, n + 1);
    let m = get_at(out, COUNTS, PHASES);
    put_at(out, PHASE, m, p as usize);
    put_at(out, COUNTS, PHASES, m + 1);
}
