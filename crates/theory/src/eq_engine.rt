// The equality engine on a lent table: classes as a union-find without path compression, the proof forest, merges with their
// levels, and explanations, as in the source. A node is its term.
ghost use Rattle.std.specs.Prelude.{suc, ◌<◌, ◌≤◌, ◌≡◌, true, [], ◌∷◌, length};
ghost use Rattle.shinri_core.specs.Lists.{zip};
ghost use Rattle.theory.specs.Types.{Congruence};
ghost use Rattle.theory.specs.EqEngine.{child, root, find, are_equal, pairs_in_force, common, way};
ghost use Rattle.shinri_core.specs.Limits.{max_terms, max_pairs, max_levels};
ghost use Rattle.shinri_core.specs.Memory.Words.{put};
ghost use Rattle.theory.specs.Memory.Replay.{IsNode};
ghost use Rattle.theory.specs.Memory.Table.{engine_size, PARENT, SIZE, FPARENT, merges#, size_word, parent_word, pair_at, is_pair, indexed#, just_at, merges, just_meaning, level, pair_buckets, pair_bucket, EngineSound, Engine, TwoNodes, Merges, Congruent, Pops};
ghost use Rattle.theory.specs.Memory.Steps.{Upward, Turnable, Turns, Spliced, TwoClasses, united, Entry, logged, Joins, just_of, LabelOf, HoldsLabel, IsLabel, IsPairAt, NoPairs, PairAsked, FindsPair, FirstOf, PairLinkable, pair_linked, Addable, PairAdded, LastPair, PairsCut, Cuttable, PairsAddable, PairRoom, Copied, Separable, separated, Undoes, newest_above, Drops};
ghost use Rattle.theory.specs.Memory.Explaining.{NewPair, Way, Label, Pairs, up_to, pairs_from, Explaining, Goes, EqualNodes, EqualPair, PairsEqual, mark_of, MarksPair, Explainable, Explains};

use crate::types::{EqJust, EqLeaf, TheoryJust, push_leaf};
use shinri_core::ids::{Lit, TermId};
use shinri_core::limits::{MAX_PAIRS, MAX_TERMS};
use shinri_core::table::{clear_at, get_at, put_at};

// ---- the layout of the table (specs/Memory/Table.antt)

// How many merges are in force, and the level.
const COUNTS: usize = 0;

const MERGES: usize = 0;

const LEVEL: usize = 1;

// For each node: its parent and the size of its class in the union-find, its parent in the forest and the merge of that edge.
const PARENT: usize = 64;

const SIZE: usize = 1088;

const FPARENT: usize = 2112;

const FEDGE: usize = 3136;

// For each merge: its sides, its label in two words, the root that went under, the old root of the first side's tree, and the pairs in
// force after it.
const SIDE_A: usize = 4160;

const SIDE_B: usize = 5184;

const LABEL: usize = 6208;

const VALUE: usize = 7232;

const CHILD: usize = 8256;

const FROOT: usize = 9280;

const AFTER: usize = 10304;

// For each argument pair: its first node with the number of the first pair of the same nodes; its second node with one more than the
// newest pair before it in its bucket, or 0.
const LEFT: usize = 11328;

const RIGHT: usize = 13376;

// The index of pairs: for each bucket one more than the newest pair in it, or 0; how many pairs it has: those in force, and maybe some behind
// them that were given back.
const HEAD: usize = 15424;

const INDEXED: usize = 16377;

const BUCKETS: usize = 953;

// A label's word holds the level of its merge, its kind (one of three) and its theory.
const ASSERTED: usize = 0;

const CONGRUENCE: usize = 1;

const INTERFACE: usize = 2;

const KIND_UNIT: usize = 65536;

const LEVEL_UNIT: usize = 262144;

// An explanation has a mark of one byte for each argument pair in force: whether it has been expanded. So many are enough for most.
const FEW: usize = 64;

// ---- classes

// Up the parents to the root of a class.
fn root(t: &[u32], node: usize) -> usize
    requires { EngineSound t.now × IsNode node }
    ensures { (result ≡ find (merges t.now) node) × IsNode result }
{
    let mut n = node;
    let mut up = get_at(t, PARENT, n);
    while up != n {
        n = up;
        up = get_at(t, PARENT, n);
    }
    n
}

// Class representative.
pub fn find(t: &[u32], n: TermId) -> TermId
    requires { EngineSound t.now × IsNode n.0 }
    ensures { (result.0 ≡ find (merges t.now) n.0) × IsNode result.0 }
{
    TermId(root(t, n.0 as usize) as u32)
}

pub fn are_equal(t: &[u32], a: TermId, b: TermId) -> bool
    requires { TwoNodes t.now a.0 b.0 }
    ensures { result ≡ are_equal (merges t.now) a.0 b.0 }
{
    let x = a.0 as usize;
    let y = b.0 as usize;
    root(t, x) == root(t, y)
}

// One node alone: its own parent, in the forest too, in a class of one.
fn alone(t: &mut [u32], n: usize)
    requires { (engine_size ≤ length t.old) × IsNode n }
    ensures { t.new ≡ put (put (put t.old PARENT n n) SIZE n 1) FPARENT n n }
{
    put_at(t, PARENT, n, n);
    put_at(t, SIZE, n, 1);
    put_at(t, FPARENT, n, n);
}

// No pair is in the index.
fn clear_pairs(t: &mut [u32])
    requires { engine_size ≤ length t.old }
    ensures { NoPairs t.new }
{
    clear_at(t, HEAD, BUCKETS);
    put_at(t, INDEXED, 0, 0);
}

// Whatever the table held, no merge is in force now, at level 0.
pub fn clear(t: &mut [u32])
    requires { engine_size ≤ length t.old }
    ensures { Engine t.new [] 0 }
{
    clear_pairs(t);
    put_at(t, COUNTS, MERGES, 0);
    put_at(t, COUNTS, LEVEL, 0);
    for n in 0..MAX_TERMS {
        alone(t, n);
    }
}

// ---- levels

// How many pushes are open.
pub fn level(t: &[u32]) -> usize
    requires { EngineSound t.now }
    ensures { (result ≡ level t.now) × (result ≤ max_levels) }
{
    get_at(t, COUNTS, LEVEL)
}

pub fn push(t: &mut [u32])
    requires { EngineSound t.old × (level t.old < max_levels) }
    ensures { Engine t.new (merges t.old) (suc (level t.old)) }
{
    let n = get_at(t, COUNTS, LEVEL);
    put_at(t, COUNTS, LEVEL, n + 1);
}

// ---- the proof forest

// Turns the way from a node up to the root of its tree and answers that root: the node becomes the root.
fn reroot_forest(t: &mut [u32], node: usize) -> usize
    requires { Turnable t.old node }
    ensures { Turns t.old t.new node result }
{
    let mut prev = node;
    let mut edge = get_at(t, FEDGE, node);
    let mut cur = get_at(t, FPARENT, node);
    while cur != prev {
        let next = get_at(t, FPARENT, cur);
        let next_edge = get_at(t, FEDGE, cur);
        put_at(t, FPARENT, cur, prev);
        put_at(t, FEDGE, cur, edge);
        prev = cur;
        edge = next_edge;
        cur = next;
    }
    put_at(t, FPARENT, node, node);
    prev
}

// How many argument pairs are in force: the newest merge says it.
pub fn pairs_in_force(t: &[u32]) -> usize
    requires { EngineSound t.now }
    ensures { (result ≡ pairs_in_force (merges t.now)) × (result ≤ max_pairs) }
{
    let n = get_at(t, COUNTS, MERGES);
    if n == 0 {
        return 0;
    }
    get_at(t, AFTER, n - 1)
}

// ---- merging

// The two sides of a merge go one by one, as in the source: the tree of the first is turned, that of the second is not.

// One new forest edge joins the two terms: the tree of a is turned to hang from a under b.
fn splice(t: &mut [u32], a: usize, b: usize, i: usize)
    requires { TwoNodes t.old a b × (i < max_terms) }
    ensures { Spliced t.old t.new a b i }
{
    let r = reroot_forest(t, a);
    put_at(t, FPARENT, a, b);
    put_at(t, FEDGE, a, i);
    put_at(t, FROOT, i, r);
}

// The class of root child goes under the root.
fn put_under(t: &mut [u32], child: usize, root: usize, i: usize)
    requires { TwoClasses t.old child root i }
    ensures { t.new ≡ united t.old child root i }
{
    let size = get_at(t, SIZE, child) + get_at(t, SIZE, root);
    put_at(t, PARENT, child, root);
    put_at(t, SIZE, root, size);
    put_at(t, CHILD, i, child);
}

// The smaller class goes under the larger; on a tie the first side's root stays.
fn union(t: &mut [u32], ra: usize, rb: usize, i: usize)
    requires { TwoClasses t.old ra rb i }
    ensures { t.new ≡ united t.old (child (size_word t.old) ra rb) (root (size_word t.old) ra rb) i }
{
    if get_at(t, SIZE, rb) <= get_at(t, SIZE, ra) {
        put_under(t, rb, ra, i);
    } else {
        put_under(t, ra, rb, i);
    }
}

// ---- labels

// The label of a merge: a literal, argument pairs from one number up to another, or the leaf of another theory.
#[derive(Clone, Copy)]
enum EdgeLabel {
    Asserted(Lit),
    Congruence { from: usize, to: usize },
    Interface(TheoryJust),
}

impl From<EqJust> for EdgeLabel {
    ghost from_gives = { λ j l. LabelOf j l };

    fn from(j: EqJust) -> EdgeLabel {
        match j {
            EqJust::Asserted(p) => EdgeLabel::Asserted(p),
            // field by field: copied whole, the leaf would pass through the stack
            EqJust::Interface(k) => EdgeLabel::Interface(TheoryJust {
                theory: k.theory,
                tag: k.tag,
            }),
        }
    }
}

// The words of a label in the log: the level of its merge, its kind and its theory in one; its literal, its tag or the start of its pairs;
// and the pairs in force after it.
#[derive(Clone, Copy)]
struct LabelWords {
    code: usize,
    value: usize,
    after: usize,
}

// They are written here, n pairs being in force before, and read back by `label_at`.
fn label_words(l: EdgeLabel, level: usize, n: usize) -> LabelWords
    requires { level ≤ max_levels }
    ensures { HoldsLabel l level n result }
{
    let code = LEVEL_UNIT * level;
    match l {
        EdgeLabel::Asserted(p) => LabelWords {
            code: code + KIND_UNIT * ASSERTED,
            value: p.0 as usize,
            after: n,
        },
        EdgeLabel::Congruence { from, to } => LabelWords {
            code: code + KIND_UNIT * CONGRUENCE,
            value: from,
            after: to,
        },
        EdgeLabel::Interface(j) => LabelWords {
            code: code + KIND_UNIT * INTERFACE + j.theory as usize,
            value: j.tag as usize,
            after: n,
        },
    }
}

// The label of merge i.
fn label_at(t: &[u32], i: usize) -> EdgeLabel
    requires { (engine_size ≤ length t.now) × (i < max_terms) }
    ensures { IsLabel t.now i result }
{
    let code = get_at(t, LABEL, i);
    let value = get_at(t, VALUE, i);
    match code / KIND_UNIT % 4 {
        ASSERTED => EdgeLabel::Asserted(Lit(value as u32)),
        CONGRUENCE => EdgeLabel::Congruence {
            from: value,
            to: get_at(t, AFTER, i),
        },
        _ => EdgeLabel::Interface(TheoryJust {
            theory: (code % KIND_UNIT) as u16,
            tag: value as u32,
        }),
    }
}

// The words of a merge in the log, but for its roots.
fn log(t: &mut [u32], i: usize, a: usize, b: usize, w: LabelWords)
    requires { (engine_size ≤ length t.old) × Entry i a b w }
    ensures { t.new ≡ logged t.old i a b w.code w.value w.after }
{
    put_at(t, SIDE_A, i, a);
    put_at(t, SIDE_B, i, b);
    put_at(t, LABEL, i, w.code);
    put_at(t, VALUE, i, w.value);
    put_at(t, AFTER, i, w.after);
}

// Joins two classes under a label of the present level.
fn join(t: &mut [u32], a: usize, b: usize, l: EdgeLabel)
    requires { Joins t.old a b l }
    ensures { Engine t.new (record { a = a; b = b; just = just_of t.old l; level = level t.old } ∷ merges t.old) (level t.old) }
{
    let i = get_at(t, COUNTS, MERGES);
    let level = get_at(t, COUNTS, LEVEL);
    let w = label_words(l, level, pairs_in_force(t));
    let ra = root(t, a);
    let rb = root(t, b);
    splice(t, a, b, i);
    union(t, ra, rb, i);
    log(t, i, a, b, w);
    put_at(t, COUNTS, MERGES, i + 1);
}

// Joins the classes of two terms under a label; within one class it does nothing.
pub fn merge(t: &mut [u32], a: TermId, b: TermId, j: EqJust)
    requires { TwoNodes t.old a.0 b.0 }
    ensures { Merges t.old t.new a.0 b.0 (just_meaning j) }
{
    if are_equal(t, a, b) {
        return;
    }
    let x = a.0 as usize;
    let y = b.0 as usize;
    join(t, x, y, EdgeLabel::from(j));
}

// ---- argument pairs

// Two nodes, in this order.
#[derive(Clone, Copy, PartialEq, Eq)]
struct Pair {
    left: usize,
    right: usize,
}

// Argument pair j.
fn pair_at(t: &[u32], j: usize) -> Pair
    requires { (engine_size ≤ length t.now) × (j < max_pairs) }
    ensures { IsPairAt t.now j result }
{
    Pair {
        left: get_at(t, LEFT, j) % MAX_TERMS,
        right: get_at(t, RIGHT, j) % MAX_TERMS,
    }
}

// Is argument pair j this pair, in either order?
fn is_pair(t: &[u32], j: usize, p: Pair) -> bool
    requires { (engine_size ≤ length t.now) × (j < max_pairs) }
    ensures { result ≡ is_pair t.now j (p.left, p.right) }
{
    let q = pair_at(t, j);
    let turned = Pair {
        left: p.right,
        right: p.left,
    };
    q == p || q == turned
}

fn pair_bucket(p: Pair) -> usize
    requires { IsNode p.left × IsNode p.right }
    ensures { (result ≡ pair_bucket p.left p.right) × (result < pair_buckets) }
{
    (p.left + p.right) % BUCKETS
}

// An indexed pair of two nodes: the pairs of one bucket are asked, the newest first; k is a word of the index, one more than a pair or 0.
fn find_pair(t: &[u32], p: Pair) -> Option<usize>
    requires { PairAsked t.now p.left p.right }
    ensures { FindsPair t.now p.left p.right result }
{
    let h = pair_bucket(p);
    let mut k = get_at(t, HEAD, h);
    while k != 0 {
        if is_pair(t, k - 1, p) {
            return Some(k - 1);
        }
        k = get_at(t, RIGHT, k - 1) / MAX_TERMS;
    }
    None
}

// The first pair of two nodes, once they are one more pair.
fn first_of(t: &[u32], p: Pair) -> usize
    requires { PairAsked t.now p.left p.right }
    ensures { FirstOf t.now p.left p.right result }
{
    match find_pair(t, p) {
        Some(k) => get_at(t, LEFT, k) / MAX_TERMS,
        None => get_at(t, INDEXED, 0),
    }
}

// One more pair, at the head of its bucket.
fn link_pair(t: &mut [u32], n: usize, p: Pair, first: usize)
    requires { PairLinkable t.old n p.left p.right first }
    ensures { t.new ≡ pair_linked t.old n p.left p.right first }
{
    let h = pair_bucket(p);
    let older = get_at(t, HEAD, h);
    put_at(t, LEFT, n, MAX_TERMS * first + p.left);
    put_at(t, RIGHT, n, MAX_TERMS * older + p.right);
    put_at(t, HEAD, h, n + 1);
    put_at(t, INDEXED, 0, n + 1);
}

fn add_pair(t: &mut [u32], p: Pair)
    requires { Addable t.old p.left p.right }
    ensures { PairAdded t.old t.new p.left p.right }
{
    let first = first_of(t, p);
    let n = get_at(t, INDEXED, 0);
    link_pair(t, n, p, first);
}

// The newest pair leaves the index.
fn drop_pair(t: &mut [u32], j: usize)
    requires { LastPair t.old j }
    ensures { PairsCut t.old t.new j }
{
    let h = pair_bucket(pair_at(t, j));
    let older = get_at(t, RIGHT, j) / MAX_TERMS;
    put_at(t, HEAD, h, older);
    put_at(t, INDEXED, 0, j);
}

// Pairs that are no longer in force leave the index, the newest first.
fn cut_pairs(t: &mut [u32], n: usize)
    requires { Cuttable t.old n }
    ensures { PairsCut t.old t.new n }
{
    for j in (n..get_at(t, INDEXED, 0)).rev() {
        drop_pair(t, j);
    }
}

fn add_pairs(t: &mut [u32], xs: &[u32], ys: &[u32])
    requires { PairsAddable t.old xs.now ys.now }
    ensures { Copied t.old t.new (indexed# t.old) xs.now ys.now }
{
    for (x, y) in xs.iter().zip(ys) {
        let p = Pair {
            left: *x as usize,
            right: *y as usize,
        };
        add_pair(t, p);
    }
}

// The numbers of two lists become argument pairs from start on.
fn copy_pairs(t: &mut [u32], start: usize, xs: &[u32], ys: &[u32])
    requires { PairRoom t.old start xs.now ys.now }
    ensures { Copied t.old t.new start xs.now ys.now }
{
    cut_pairs(t, start);
    add_pairs(t, xs, ys);
}

// Like `merge`, but the label is all argument pairs of the two applications, in order. Within one class no pairs are taken.
pub fn merge_congruence(t: &mut [u32], a: TermId, b: TermId, xs: &[u32], ys: &[u32])
    requires { Congruent t.old a.0 b.0 xs.now ys.now }
    ensures { Merges t.old t.new a.0 b.0 (Congruence (zip xs.now ys.now)) }
{
    if are_equal(t, a, b) {
        return;
    }
    let x = a.0 as usize;
    let y = b.0 as usize;
    let from = pairs_in_force(t);
    let to = from + xs.len();
    copy_pairs(t, from, xs, ys);
    join(t, x, y, EdgeLabel::Congruence { from, to });
}

// ---- undoing

// The class of root child, which was under another, is its own again.
fn separate(t: &mut [u32], child: usize)
    requires { Separable t.old child }
    ensures { t.new ≡ separated t.old child (parent_word t.old child) }
{
    let root = get_at(t, PARENT, child);
    let both = get_at(t, SIZE, root);
    let rest = both - get_at(t, SIZE, child);
    put_at(t, SIZE, root, rest);
    put_at(t, PARENT, child, child);
}

// The newest merge is taken back: its edge is cut, so the first side is a root, and the way to it from the old root is turned again.
fn undo(t: &mut [u32])
    requires { EngineSound t.old × (0 < merges# t.old) }
    ensures { Undoes t.old t.new }
{
    let i = get_at(t, COUNTS, MERGES) - 1;
    let a = get_at(t, SIDE_A, i);
    let child = get_at(t, CHILD, i);
    let r = get_at(t, FROOT, i);
    put_at(t, FPARENT, a, a);
    reroot_forest(t, r);
    separate(t, child);
    put_at(t, COUNTS, MERGES, i);
}

fn newest_above(t: &[u32], level: usize) -> bool
    requires { EngineSound t.now }
    ensures { result ≡ newest_above level (merges t.now) }
{
    let n = get_at(t, COUNTS, MERGES);
    n != 0 && level < get_at(t, LABEL, n - 1) / LEVEL_UNIT
}

fn undo_above(t: &mut [u32], to: usize)
    requires { EngineSound t.old }
    ensures { Drops t.old t.new to }
{
    while newest_above(t, to) {
        undo(t);
    }
}

// Back to a level: classes, sizes, forest and pairs as they were. At or above the present level nothing changes.
pub fn pop(t: &mut [u32], to: usize)
    requires { EngineSound t.old }
    ensures { Pops t.old t.new to }
{
    if get_at(t, COUNTS, LEVEL) <= to {
        return;
    }
    undo_above(t, to);
    put_at(t, COUNTS, LEVEL, to);
}

// ---- explanation

// How many edges lie between a node and the root of its tree in the proof forest.
fn forest_depth(t: &[u32], node: usize) -> usize
    requires { EngineSound t.now × IsNode node }
    ensures { result ≡ length (way (merges t.now) node) }
{
    let mut n = node;
    let mut d = 0;
    let mut up = get_at(t, FPARENT, n);
    while up != n {
        n = up;
        d += 1;
        up = get_at(t, FPARENT, n);
    }
    d
}

// The nearest common ancestor of two equal nodes: the deeper one goes up, at one depth the first, until both are one.
fn forest_nca(t: &[u32], a: usize, b: usize) -> usize
    requires { TwoNodes t.now a b × (are_equal (merges t.now) a b ≡ true) }
    ensures { result ≡ common a (way (merges t.now) a) b (way (merges t.now) b) }
{
    let mut x = a;
    let mut y = b;
    let mut dx = forest_depth(t, a);
    let mut dy = forest_depth(t, b);
    while x != y {
        if dx < dy {
            y = get_at(t, FPARENT, y);
            dy -= 1;
        } else {
            x = get_at(t, FPARENT, x);
            dx -= 1;
        }
    }
    x
}

// Marks the argument pairs in force that are this pair: all of them have one first pair. The index may have pairs behind those in force,
// and a first pair among them may have no mark.
fn mark_pairs(t: &[u32], p: Pair, marks: &mut [u8])
    requires { EngineSound t.now × IsNode p.left × IsNode p.right × (pairs_in_force (merges t.now) ≤ length marks.old) }
    ensures { MarksPair t.now p.left p.right marks.old marks.new }
{
    if let Some(k) = find_pair(t, p) {
        let first = get_at(t, LEFT, k) / MAX_TERMS;
        if first < marks.len() {
            marks[first] = 1;
        }
    }
}

// Has argument pair j been expanded? Its first pair has the mark.
fn is_expanded(t: &[u32], j: usize, marks: &[u8]) -> bool
    requires { EngineSound t.now × (j < pairs_in_force (merges t.now)) × (pairs_in_force (merges t.now) ≤ length marks.now) }
    ensures { result ≡ mark_of t.now marks.now j }
{
    let first = get_at(t, LEFT, j) / MAX_TERMS;
    marks[first] != 0
}

// Explains two equal nodes whose pair has not been expanded yet: the first up to the nearest common ancestor, then the second. Marks and
// answer go one by one, as in the source: a struct of two lent tables would be lent again, by each of five functions, and say no more.
#[cycle(expand_edge_expand_pair_expand_pairs_expand_way_explain_rec)]
fn explain_rec(t: &[u32], a: usize, b: usize, marks: &mut [u8], out: &mut [u32])
    requires { Explaining t.now marks.old out.old × EqualNodes t.now a b }
    ensures { Goes t.now marks.old out.old marks.new out.new
        (NewPair a b) }
{
    if a == b {
        return;
    }
    mark_pairs(t, Pair { left: a, right: b }, marks);
    let n = forest_nca(t, a, b);
    expand_way(t, a, n, marks, out);
    expand_way(t, b, n, marks, out);
}

// Expands the edges from a node up to one above it.
#[cycle(expand_edge_expand_pair_expand_pairs_expand_way_explain_rec)]
fn expand_way(t: &[u32], node: usize, top: usize, marks: &mut [u8], out: &mut [u32])
    requires { Explaining t.now marks.old out.old × Upward t.now node top }
    ensures { Goes t.now marks.old out.old marks.new out.new
        (Way (up_to t.now node top)) }
{
    let mut n = node;
    while n != top {
        expand_edge(t, get_at(t, FEDGE, n), marks, out);
        n = get_at(t, FPARENT, n);
    }
}

// Expands the label of merge i: its leaf, or the pairs of a congruence.
#[cycle(expand_edge_expand_pair_expand_pairs_expand_way_explain_rec)]
fn expand_edge(t: &[u32], i: usize, marks: &mut [u8], out: &mut [u32])
    requires { Explaining t.now marks.old out.old × (i < merges# t.now) }
    ensures { Goes t.now marks.old out.old marks.new out.new
        (Label (just_at t.now i)) }
{
    match label_at(t, i) {
        EdgeLabel::Asserted(p) => push_leaf(out, EqLeaf::Asserted(p)),
        EdgeLabel::Congruence { from, to } => expand_pairs(t, from, to, marks, out),
        // field by field: copied whole, the leaf would pass through the stack, and a nested congruence take 32 bytes more
        EdgeLabel::Interface(j) => push_leaf(
            out,
            EqLeaf::Interface(TheoryJust {
                theory: j.theory,
                tag: j.tag,
            }),
        ),
    }
}

// Explains the argument pairs from one number up to another in turn.
#[cycle(expand_edge_expand_pair_expand_pairs_expand_way_explain_rec)]
fn expand_pairs(t: &[u32], from: usize, to: usize, marks: &mut [u8], out: &mut [u32])
    requires { Explaining t.now marks.old out.old × PairsEqual t.now from to }
    ensures { Goes t.now marks.old out.old marks.new out.new
        (Pairs (pairs_from t.now from to)) }
{
    for k in from..to {
        expand_pair(t, k, marks, out);
    }
}

// Explains argument pair j, unless it has been expanded.
#[cycle(expand_edge_expand_pair_expand_pairs_expand_way_explain_rec)]
fn expand_pair(t: &[u32], j: usize, marks: &mut [u8], out: &mut [u32])
    requires { Explaining t.now marks.old out.old × EqualPair t.now j }
    ensures { Goes t.now marks.old out.old marks.new out.new
        (Pairs (pair_at t.now j ∷ [])) }
{
    if !is_expanded(t, j, marks) {
        let p = pair_at(t, j);
        explain_rec(t, p.left, p.right, marks, out);
    }
}

// Explains with N marks, where no more pairs are in force.
fn explain_with<const N: usize>(t: &[u32], a: usize, b: usize, out: &mut [u32])
    requires { Explainable t.now a b out.old × (pairs_in_force (merges t.now) ≤ N) × (N ≤ max_pairs) }
    ensures { Explains t.now a b out.old out.new }
{
    let mut marks = [0u8; N];
    explain_rec(t, a, b, &mut marks, out);
}

// Appends the leaves that the equality of two terms rests on, each once. All marks are set to 0 first, so there are few where few serve.
pub fn explain(t: &[u32], a: TermId, b: TermId, out: &mut [u32])
    requires { Explainable t.now a.0 b.0 out.old }
    ensures { Explains t.now a.0 b.0 out.old out.new }
{
    let x = a.0 as usize;
    let y = b.0 as usize;
    if pairs_in_force(t) <= FEW {
        explain_with::<FEW>(t, x, y, out);
    } else {
        explain_with::<MAX_PAIRS>(t, x, y, out);
    }
}
