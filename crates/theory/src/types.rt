// What an equality rests on (types.rs), and the answer table (specs/Memory/Answer.antt): leaves in order, each once.
ghost use Rattle.std.specs.Prelude.{◌≡◌, ◌<◌, ◌≤◌, length, get_or};
ghost use Rattle.shinri_core.specs.Limits.{max_terms};
ghost use Rattle.shinri_core.specs.Memory.Words.{at};
ghost use Rattle.theory.specs.Types.{AssertedLeaf};
ghost use Rattle.theory.specs.Memory.Answer.{LEAF_KIND, LEAF_VALUE, answer_size, buckets, bucket, leaf_of, leaves, leaf_meaning, has_leaf, LeavesSound, HasRoom, LeafFits, HoldsLeaf, Linkable, linked, Pushed, Cleared};

use shinri_core::ids::Lit;
use shinri_core::table::{clear_at, get_at, put_at};

// The leaf of another theory: which one, and a tag of its own.
#[derive(Clone, Copy, PartialEq, Eq)]
pub struct TheoryJust {
    pub theory: u16,
    pub tag: u32,
}

// The label of an edge that is no congruence: a literal, or the leaf of another theory. It and EqLeaf are two types, as in the source,
// whose labels have kinds that no leaf has.
#[derive(Clone, Copy, PartialEq, Eq)]
pub enum EqJust {
    Asserted(Lit),
    Interface(TheoryJust),
}

// A leaf of an explanation: an input literal, or what another theory has still to explain.
#[derive(Clone, Copy, PartialEq, Eq)]
pub enum EqLeaf {
    Asserted(Lit),
    Interface(TheoryJust),
}

// ---- the answer table

// Its regions: how many leaves; for each leaf 0, or one more than its theory; its literal or its tag; the index: for each bucket one more
// than the newest leaf in it, or 0, and for each leaf the same of the leaves before it in its bucket.
const COUNTS: usize = 0;

const LEAVES: usize = 0;

const LEAF_KIND: usize = 1;

const LEAF_VALUE: usize = 1025;

const BUCKET: usize = 2049;

const LINK: usize = 2300;

const BUCKETS: usize = 251;

// No leaf yet.
pub fn clear_leaves(out: &mut [u32])
    requires { answer_size ≤ length out.old }
    ensures { Cleared out.new }
{
    clear_at(out, BUCKET, BUCKETS);
    put_at(out, COUNTS, LEAVES, 0);
}

pub fn leaf_count(out: &[u32]) -> usize
    requires { LeavesSound out.now }
    ensures { (result ≡ length (leaves out.now)) × (result ≤ max_terms) }
{
    get_at(out, COUNTS, LEAVES)
}

pub fn leaf(out: &[u32], i: usize) -> EqLeaf
    requires { LeavesSound out.now × (i < length (leaves out.now)) }
    ensures { leaf_meaning result ≡ get_or (leaves out.now) i (AssertedLeaf 0) }
{
    let kind = get_at(out, LEAF_KIND, i);
    let value = get_at(out, LEAF_VALUE, i) as u32;
    if kind == 0 {
        EqLeaf::Asserted(Lit(value))
    } else {
        EqLeaf::Interface(TheoryJust {
            theory: (kind - 1) as u16,
            tag: value,
        })
    }
}

// ---- appending

// The words of a leaf. The kind is 0 for a literal, one more than the theory for an interface leaf.
#[derive(Clone, Copy, PartialEq, Eq)]
struct LeafWords {
    kind: usize,
    value: usize,
}

fn leaf_words(l: EqLeaf) -> LeafWords
    ensures { HoldsLeaf l result }
{
    match l {
        EqLeaf::Asserted(p) => LeafWords {
            kind: 0,
            value: p.0 as usize,
        },
        EqLeaf::Interface(j) => LeafWords {
            kind: 1 + j.theory as usize,
            value: j.tag as usize,
        },
    }
}

fn words_at(out: &[u32], i: usize) -> LeafWords
    requires { (answer_size ≤ length out.now) × (i < max_terms) }
    ensures { (result.kind ≡ at out.now LEAF_KIND i) × (result.value ≡ at out.now LEAF_VALUE i) }
{
    LeafWords {
        kind: get_at(out, LEAF_KIND, i),
        value: get_at(out, LEAF_VALUE, i),
    }
}

fn bucket(w: LeafWords) -> usize
    requires { LeafFits w }
    ensures { (result ≡ bucket w.kind w.value) × (result < buckets) }
{
    (w.kind + w.value) % BUCKETS
}

// Does the leaf stand there? The leaves of one bucket are asked, the newest first; k is a word of the index, one more than a leaf or 0.
fn has_leaf(out: &[u32], w: LeafWords) -> bool
    requires { LeavesSound out.now × LeafFits w }
    ensures { result ≡ has_leaf (leaf_of w.kind w.value) (leaves out.now) }
{
    let h = bucket(w);
    let mut k = get_at(out, BUCKET, h);
    while k != 0 {
        if w == words_at(out, k - 1) {
            return true;
        }
        k = get_at(out, LINK, k - 1);
    }
    false
}

// Leaf n goes to the head of its bucket.
fn link_leaf(out: &mut [u32], n: usize, w: LeafWords)
    requires { Linkable out.old n w }
    ensures { out.new ≡ linked out.old n (bucket w.kind w.value) }
{
    let h = bucket(w);
    let older = get_at(out, BUCKET, h);
    put_at(out, LINK, n, older);
    put_at(out, BUCKET, h, n + 1);
}

// Appends a leaf unless it stands there already.
pub fn push_leaf(out: &mut [u32], l: EqLeaf)
    requires { LeavesSound out.old × HasRoom out.old (leaf_meaning l) }
    ensures { Pushed out.old out.new (leaf_meaning l) }
{
    let w = leaf_words(l);
    if has_leaf(out, w) {
        return;
    }
    let n = get_at(out, COUNTS, LEAVES);
    link_leaf(out, n, w);
    put_at(out, LEAF_KIND, n, w.kind);
    put_at(out, LEAF_VALUE, n, w.value);
    put_at(out, COUNTS, LEAVES, n + 1);
}
