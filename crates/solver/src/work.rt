// The work table of a check (specs/Memory/Work.antt): marks, roots, and for each class its marked constructor applications.
ghost use Rattle.std.specs.Prelude.{◌+◌, ◌≡◌, ◌≤◌, ◌<◌, length};
ghost use Rattle.shinri_core.specs.Memory.Words.{at};
ghost use Rattle.shinri_core.specs.Limits.{max_terms};
ghost use Rattle.theory.specs.EqEngine.{find};
ghost use Rattle.theory.specs.Memory.Table.{merges};
ghost use Rattle.solver.specs.Memory.Table.{blocks, Announced, StateSound};
ghost use Rattle.solver.specs.Memory.Work.{W_MARK, W_BLOCK, ClassAsked, CtorAsked, CtorOfClass, NEXT, term_word, word_from, MarksAsked, LowestInBlock, LowestMarked, Markable, Lowered, Marked, Blank, Begins, Copyable, MarksCopied, Linkable, Linked, linked, work_size};

use crate::layout::{BLOCK_TERMS, BLOCKS, Kind, MARK, mark_word};
use crate::roles::term_kind;
use shinri_core::context::{copy_words, op, term_count};
use shinri_core::ids::{SymbolId, TermId};
use shinri_core::table::{get_at, put_at, words_at};
use shinri_core::term::Op;
use theory::eq_engine::find;

// The regions: for each term its mark; for each block of terms its word, in a check 0; for each term one more than the root of its class,
// where it is known; for each root one more than the lowest marked constructor application of its class; for each such application one
// more than the next of its class. A shorter table has marks and blocks alone: outside a check the solver's table lends its own.
pub const W_MARK: usize = 0;

const W_BLOCK: usize = 1024;

pub const ROOT: usize = 1056;

const LOWEST: usize = 2080;

const NEXT: usize = 3104;

pub const WORK_SIZE: usize = 4128;

// The root of a term's class.
pub fn root_of(t: &[u32], e: &[u32], w: &[u32], x: usize) -> usize
    requires { ClassAsked t.now e.now w.now x }
    ensures { (result ≡ find (merges e.now) x) × (result < max_terms) }
{
    let word = get_at(w, ROOT, x);
    if word == 0 {
        let root = find(e, TermId(x as u32));
        return root.0 as usize;
    }
    word - 1
}

// ---- the constructor of a class

// The term that a word stands for, if any.
fn word_term(word: usize) -> Option<TermId>
    requires { word < 4294967296 }
    ensures { term_word result ≡ word }
{
    if word == 0 {
        return None;
    }
    Some(TermId((word - 1) as u32))
}

// The lowest marked constructor application of a block in the class of a root.
fn lowest_in_block(e: &[u32], w: &[u32], b: usize, root: TermId) -> Option<TermId>
    requires { MarksAsked e.now w.now × (b < blocks) }
    ensures { LowestInBlock e.now w.now b root.0 (term_word result) }
{
    for i in 0..BLOCK_TERMS {
        let x = b * BLOCK_TERMS + i;
        if get_at(w, W_MARK, x) == Kind::CtorApp as usize {
            let app = TermId(x as u32);
            if find(e, app) == root {
                return Some(app);
            }
        }
    }
    None
}

// The same of all terms; a block where none is marked is passed over.
fn lowest_marked(e: &[u32], w: &[u32], root: TermId) -> Option<TermId>
    requires { MarksAsked e.now w.now × Announced w.now W_MARK W_BLOCK }
    ensures { LowestMarked e.now w.now root.0 (term_word result) }
{
    for b in 0..BLOCKS {
        if get_at(w, W_BLOCK, b) != 0 {
            if let Some(app) = lowest_in_block(e, w, b, root) {
                return Some(app);
            }
        }
    }
    None
}

// The same of a term's class. A short table has no roots: for one question, outside a check, a whole one does not pay.
pub fn lowest_of_class(t: &[u32], e: &[u32], w: &[u32], x: TermId) -> Option<TermId>
    requires { CtorAsked t.now e.now w.now x.0 }
    ensures { term_word result ≡ word_from t.now e.now w.now x.0 0 }
{
    if w.len() < WORK_SIZE {
        let root = find(e, x);
        return lowest_marked(e, w, root);
    }
    let root = root_of(t, e, w, x.0 as usize);
    word_term(get_at(w, LOWEST, root))
}

// The next marked constructor application behind one of a class.
pub fn next_of_class(w: &[u32], x: TermId) -> Option<TermId>
    requires { NEXT + x.0 < length w.now }
    ensures { term_word result ≡ at w.now NEXT x.0 }
{
    word_term(get_at(w, NEXT, x.0 as usize))
}

// The constructor of a term's class, if any, with its lowest marked application: the one way by which it is found.
pub fn ctor_of_class(t: &[u32], e: &[u32], w: &[u32], x: TermId) -> Option<(SymbolId, TermId)>
    requires { CtorAsked t.now e.now w.now x.0 }
    ensures { CtorOfClass t.now e.now w.now x.0 result }
{
    let app = lowest_of_class(t, e, w, x)?;
    match op(t, app) {
        Op::Eq => None,
        Op::Uninterpreted(f) => Some((f, app)),
    }
}

// ---- marking

// A marked constructor application is the lowest of its class, unless there is a lower one.
fn lower(t: &[u32], e: &[u32], w: &mut [u32], x: usize)
    requires { ClassAsked t.now e.now w.old x }
    ensures { Lowered (find (merges e.now) x) x w.old w.new }
{
    let root = root_of(t, e, w, x);
    let word = get_at(w, LOWEST, root);
    if word == 0 {
        put_at(w, LOWEST, root, x + 1);
    } else if x + 1 < word {
        put_at(w, LOWEST, root, x + 1);
    }
}

// Marks a relevant term, unless it is marked: then the lowest of its class is no higher.
pub fn mark(t: &[u32], e: &[u32], w: &mut [u32], x: usize)
    requires { Markable t.now e.now w.old x }
    ensures { Marked t.now e.now w.old x w.new }
{
    if get_at(w, W_MARK, x) != 0 {
        return;
    }
    let kind = mark_word(term_kind(t, TermId(x as u32)));
    if kind == Kind::CtorApp as usize {
        lower(t, e, w, x);
    }
    put_at(w, W_MARK, x, kind);
}

// ---- a check begins

// The marks of the solver's table; behind the last term it has none.
fn copy_marks(t: &[u32], s: &[u32], w: &mut [u32])
    requires { Copyable t.now s.now w.old }
    ensures { MarksCopied t.now s.now w.old w.new }
{
    let n = term_count(t);
    copy_words(w, W_MARK, 0, words_at(s, MARK, 0, n));
}

// A constructor application goes before those of its class that stand there.
fn link(w: &mut [u32], x: usize, root: usize)
    requires { (work_size ≤ length w.old) × (x < max_terms) × (root < max_terms) }
    ensures { w.new ≡ linked w.old x root }
{
    put_at(w, NEXT, x, get_at(w, LOWEST, root));
    put_at(w, LOWEST, root, x + 1);
}

// The root of each term, and for each class its marked constructor applications: from the last term down, so that the lower one comes
// to stand before the higher.
fn take_roots(t: &[u32], e: &[u32], w: &mut [u32])
    requires { Linkable t.now e.now w.old }
    ensures { Linked t.now e.now w.old w.new }
{
    for i in (0..term_count(t)).rev() {
        let root = find(e, TermId(i as u32));
        put_at(w, ROOT, i, root.0 as usize + 1);
        if get_at(w, W_MARK, i) == Kind::CtorApp as usize {
            link(w, i, root.0 as usize);
        }
    }
}

// The work table of a check, from one where nothing stands yet.
pub fn begin(t: &[u32], e: &[u32], s: &[u32], w: &mut [u32])
    requires { StateSound t.now e.now s.now × Blank w.old }
    ensures { Begins t.now e.now s.now w.new }
{
    copy_marks(t, s, w);
    take_roots(t, e, w);
}
