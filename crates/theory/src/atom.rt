// The registry of variables (AtomRegistry of atom.rs), on a lent table of its own.
ghost use Rattle.std.specs.Prelude.{◌≡◌, true, [], ◌<◌, ◌≤◌, length};
ghost use Rattle.shinri_core.specs.Limits.{max_terms};
ghost use Rattle.theory.specs.Atom.{register, is_registered, atom, var_of_atom};
ghost use Rattle.theory.specs.Memory.Registry.{registry_size, atoms, RegistrySound, Registrable, first_with, first_var_meaning};

use shinri_core::ids::{TermId, Var};
use shinri_core::limits::{MAX_TERMS, MAX_VARS};
use shinri_core::table::{clear_at, get_at, put_at};

// The regions of the table (specs/Memory/Registry.antt): how many variables, the variables as registered, for each variable one more
// than its atom, for each atom one more than its first variable. A word of lent memory has no other way to say none than 0.
const COUNTS: usize = 0;

const VARS: usize = 0;

const VAR: usize = 1;

const ATOM: usize = 1025;

const FIRST: usize = 2049;

pub fn is_registered(t: &[u32], v: Var) -> bool
    requires { RegistrySound t.now }
    ensures { result ≡ is_registered (atoms t.now) v.0 }
{
    let i = v.0 as usize;
    i < MAX_VARS && get_at(t, ATOM, i) != 0
}

// The atom of a registered variable.
pub fn atom(t: &[u32], v: Var) -> TermId
    requires { RegistrySound t.now × (is_registered (atoms t.now) v.0 ≡ true) }
    ensures { (result.0 ≡ atom (atoms t.now) v.0) × (result.0 < max_terms) }
{
    let i = v.0 as usize;
    TermId((get_at(t, ATOM, i) - 1) as u32)
}

// The variable that an atom was first registered as, if it was.
pub fn var_of_atom(t: &[u32], x: TermId) -> Option<Var>
    requires { RegistrySound t.now × (x.0 < max_terms) }
    ensures { first_var_meaning result ≡ var_of_atom (atoms t.now) x.0 }
{
    let i = x.0 as usize;
    let w = get_at(t, FIRST, i);
    if w == 0 {
        None
    } else {
        Some(Var((w - 1) as u32))
    }
}

// ---- an empty registry

// Whatever the table held, no variable is registered now.
pub fn clear(t: &mut [u32])
    requires { registry_size ≤ length t.old }
    ensures { RegistrySound t.new × (atoms t.new ≡ []) }
{
    clear_at(t, ATOM, MAX_VARS);
    clear_at(t, FIRST, MAX_TERMS);
    put_at(t, COUNTS, VARS, 0);
}

// ---- registering

// The word of an atom once it has variable v too: its first variable stays its first.
fn first_with(t: &[u32], x: usize, v: usize) -> usize
    requires { Registrable t.now v x }
    ensures { (result ≡ first_with t.now x v) × (result < 4294967296) }
{
    let w = get_at(t, FIRST, x);
    if w == 0 { v + 1 } else { w }
}

// The variable must not be registered yet.
pub fn register(t: &mut [u32], v: Var, x: TermId)
    requires { Registrable t.old v.0 x.0 }
    ensures { RegistrySound t.new × (atoms t.new ≡ register (atoms t.old) v.0 x.0) }
{
    let n = get_at(t, COUNTS, VARS);
    let i = v.0 as usize;
    let j = x.0 as usize;
    let w = first_with(t, j, i);
    put_at(t, FIRST, j, w);
    put_at(t, VAR, n, i);
    put_at(t, ATOM, i, j + 1);
    put_at(t, COUNTS, VARS, n + 1);
}
