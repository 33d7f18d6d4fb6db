// The solver's table between checks: an empty one, the registry of variables, and collection (DtSolver::collect, new_var).
ghost use Rattle.std.specs.Prelude.{◌≡◌, true, false, ◌≤◌, ◌<◌, length};
ghost use Rattle.shinri_core.specs.Limits.{max_terms, table_words};
ghost use Rattle.shinri_core.specs.Memory.Table.{context, ContextSound};
ghost use Rattle.theory.specs.Atom.{is_registered, atom};
ghost use Rattle.theory.specs.Memory.Registry.{atoms};
ghost use Rattle.solver.specs.Memory.Table.{registry, SolverSound};
ghost use Rattle.solver.specs.Memory.Recording.{with_mark, NoneAnnounced, NoneLasting, Wiped, SolverCleared, MayRegister, Registers, Collecting, Collects, CollectsChildren, CollectsVar};

use crate::layout::{
    BLOCK, BLOCK_TERMS, BLOCKS, COLLECTED, COUNTS, Kind, LASTING, MARK, REGISTRY_SIZE, mark_word,
};
use crate::roles::term_kind;
use shinri_core::context::{children, term_count};
use shinri_core::ids::{TermId, Var};
use shinri_core::table::{clear_at, get_at, put_at, words_at};
use theory::atom;

// The count of the records, the marks, the words of the blocks and the flags of all terms and keys stand side by side, from COUNTS on.
const FLAG_WORDS: usize = 8256;

// ---- an empty table

fn wipe(s: &mut [u32])
    requires { table_words ≤ length s.old }
    ensures { Wiped s.old s.new }
{
    clear_at(s, COUNTS, FLAG_WORDS);
}

// Whatever the table held, it is now that of an empty session.
pub fn clear(s: &mut [u32])
    requires { table_words ≤ length s.old }
    ensures { SolverCleared s.new }
{
    wipe(s);
    atom::clear(&mut s[..REGISTRY_SIZE]);
}

// ---- variables

pub fn is_registered(s: &[u32], v: Var) -> bool
    requires { SolverSound s.now }
    ensures { result ≡ is_registered (atoms (registry s.now)) v.0 }
{
    atom::is_registered(&s[..REGISTRY_SIZE], v)
}

// The atom of a registered variable.
pub fn atom(s: &[u32], v: Var) -> TermId
    requires { SolverSound s.now × (is_registered (atoms (registry s.now)) v.0 ≡ true) }
    ensures { (result.0 ≡ atom (atoms (registry s.now)) v.0) × (result.0 < max_terms) }
{
    atom::atom(&s[..REGISTRY_SIZE], v)
}

// The variable must not be registered yet.
pub fn register(s: &mut [u32], v: Var, x: TermId)
    requires { MayRegister s.old v.0 x.0 }
    ensures { Registers s.old v.0 x.0 s.new }
{
    atom::register(&mut s[..REGISTRY_SIZE], v, x);
}

// ---- marks

// Sets the word of a term's mark; a constructor application is announced in its block.
pub fn put_mark(s: &mut [u32], x: usize, kind: usize)
    requires { (table_words ≤ length s.old) × (x < max_terms) × (kind < 4294967296) }
    ensures { s.new ≡ with_mark s.old x kind }
{
    put_at(s, MARK, x, kind);
    if kind == Kind::CtorApp as usize {
        put_at(s, BLOCK, x / BLOCK_TERMS, 1);
    }
}

// May a constructor application be marked?
pub fn has_app(s: &[u32]) -> bool
    requires { table_words ≤ length s.now }
    ensures { result ≡ false → NoneAnnounced s.now }
{
    words_at(s, BLOCK, 0, BLOCKS).iter().any(|word| *word != 0)
}

// Does a term stand in the lasting record?
pub fn has_lasting(t: &[u32], s: &[u32]) -> bool
    requires { ContextSound t.now × (table_words ≤ length s.now) }
    ensures { result ≡ false → NoneLasting t.now s.now }
{
    words_at(s, LASTING, 0, term_count(t))
        .iter()
        .any(|word| *word != 0)
}

// ---- collection

#[cycle(collect_collect_children)]
fn collect_children(t: &[u32], s: &mut [u32], x: usize)
    requires { Collecting t.now s.old × (x < length (context t.now).terms) }
    ensures { CollectsChildren t.now s.old x s.new }
{
    let args = children(t, TermId(x as u32));
    for arg in args {
        collect(t, s, *arg as usize);
    }
}

// Collects a term and what lies below it, each once: what is relevant is marked. A collected term is passed over for good.
#[cycle(collect_collect_children)]
fn collect(t: &[u32], s: &mut [u32], x: usize)
    requires { Collecting t.now s.old × (x < length (context t.now).terms) }
    ensures { Collects t.now s.old x s.new }
{
    if get_at(s, COLLECTED, x) == 0 {
        collect_children(t, s, x);
        let kind = mark_word(term_kind(t, TermId(x as u32)));
        put_mark(s, x, kind);
        put_at(s, COLLECTED, x, 1);
    }
}

// A registered atom is collected.
pub fn new_var(t: &[u32], s: &mut [u32], x: TermId)
    requires { Collecting t.now s.old × (x.0 < length (context t.now).terms) }
    ensures { CollectsVar t.now s.old x.0 s.new }
{
    collect(t, s, x.0 as usize);
}
