// Declarations and terms on one table (context.rs).
ghost use Rattle.std.specs.Prelude.{◌≡◌, ◌+◌, ◌<◌, ◌≤◌, length, get_or, [], ◌∷◌};
ghost use Rattle.shinri_core.specs.Limits.{max_sorts, max_symbols, max_terms, max_places, max_params, table_words};
ghost use Rattle.shinri_core.specs.Context.{empty_context, cut_terms, declare_sort, declare_fun, selectors_from, dt_add_constructor, builds, dt_tester, datatypes, ready, has_ready_fields, all_grounded, places, is_datatype_sort, symbol, children, sort_of};
ghost use Rattle.shinri_core.specs.Memory.Words.{put_all};
ghost use Rattle.shinri_core.specs.Memory.Table.{symbols#, terms#, digit, packed, term_at, context, buckets, bucket, AllBelow, ContextSound, HasParam, FindsApp, MayIntern, MayApply, MayEquate, Appendable, Appended, MayDeclare, SymbolRoom, SymbolAdded, SelectorRoom, SymbolsAdded, NoTerms, NextConstructor, marked, adds, Marks, MarkRound};
ghost use Rattle.shinri_core.specs.Lists.{every, same_list};
ghost use Rattle.shinri_core.specs.Term.{same_term};
ghost use Rattle.shinri_core.specs.Memory.Codes.{op_code, op_meaning, owner_code, OpAt, RoleAt, MkApp, Declares, declared_node};
ghost use Rattle.shinri_core.specs.Term as Term;

use crate::ids::{SortId, SymbolId, TermId};
use crate::limits::{MAX_PLACES, MAX_SORTS, MAX_SYMBOLS, MAX_TERMS, NoRoom};
use crate::table::{clear_at, get_at, put_at, words_at};
use crate::term::{DtRole, Op, role_from};

// ---- the layout of the table (specs/Memory/Table.antt)

// How many sorts, symbols and terms there are.
const COUNTS: usize = 0;

const SORTS: usize = 0;

const SYMBOLS: usize = 1;

const TERMS: usize = 2;

// For each sort: its kind, as the number of a `SortNode`.
const SORT: usize = 64;

// For each symbol: one more than the constructor it belongs to, or 0, its result sort, how many parameters, and four to a word their
// sorts. (The table's words and places are fixed, so numbers are packed in them, and 0 stands for none there and nowhere else.)
const OWNER: usize = 128;

const RESULT: usize = 640;

const ARITY: usize = 1152;

const PARAMS: usize = 8192;

// For each term: one more than its symbol, and where its arguments begin in the pool; the pool of arguments.
const OP: usize = 1664;

const OFFSET: usize = 2688;

const POOL: usize = 3840;

// For each of 1,021 buckets: one more than the newest term in it, or 0; and for each term the same of the terms before it in its bucket.
const BUCKET: usize = 10240;

const LINK: usize = 11264;

const BUCKETS: usize = 1021;

// A sort is below it, and takes a digit of a word; what the four digits count by.
const RADIX: usize = 64;

const PLACES: [usize; 4] = [1, 64, 4096, 262144];

// Bool, a datatype, or another sort.
#[derive(Clone, Copy)]
enum SortNode {
    Bool,
    Datatype,
    Uninterpreted,
}

// ---- an empty table

fn clear_buckets(t: &mut [u32])
    requires { table_words ≤ length t.old }
    ensures { NoTerms t.new }
{
    clear_at(t, BUCKET, BUCKETS);
}

// Whatever the table held, it is now that of an empty session.
pub fn clear(t: &mut [u32])
    requires { table_words ≤ length t.old }
    ensures { ContextSound t.new × (context t.new ≡ empty_context) }
{
    clear_buckets(t);
    put_at(t, COUNTS, SORTS, 1);
    put_at(t, COUNTS, SYMBOLS, 0);
    put_at(t, COUNTS, TERMS, 0);
    put_at(t, SORT, 0, SortNode::Bool as usize);
    put_at(t, OFFSET, 0, 0);
}

// ---- counts: each is one call of `get_at`, under a contract of its own

pub fn sort_count(t: &[u32]) -> usize
    requires { ContextSound t.now }
    ensures { (result ≡ length (context t.now).sorts) × (result ≤ max_sorts) }
{
    get_at(t, COUNTS, SORTS)
}

pub fn symbol_count(t: &[u32]) -> usize
    requires { ContextSound t.now }
    ensures { (result ≡ length (context t.now).symbols) × (result ≤ max_symbols) }
{
    get_at(t, COUNTS, SYMBOLS)
}

pub fn term_count(t: &[u32]) -> usize
    requires { ContextSound t.now }
    ensures { (result ≡ length (context t.now).terms) × (result ≤ max_terms) }
{
    get_at(t, COUNTS, TERMS)
}

// ---- sorts and symbols

pub fn is_datatype_sort(t: &[u32], s: SortId) -> bool
    requires { ContextSound t.now × (s.0 < length (context t.now).sorts) }
    ensures { result ≡ is_datatype_sort (context t.now) s.0 }
{
    let i = s.0 as usize;
    get_at(t, SORT, i) == SortNode::Datatype as usize
}

pub fn result_sort(t: &[u32], f: SymbolId) -> SortId
    requires { ContextSound t.now × (f.0 < length (context t.now).symbols) }
    ensures { (result.0 ≡ (symbol (context t.now) f.0).result) × (result.0 < length (context t.now).sorts) }
{
    let i = f.0 as usize;
    SortId(get_at(t, RESULT, i) as u32)
}

// How many parameters a symbol has.
pub fn arity(t: &[u32], f: SymbolId) -> usize
    requires { ContextSound t.now × (f.0 < length (context t.now).symbols) }
    ensures { (result ≡ length (symbol (context t.now) f.0).params) × (result ≤ max_params) }
{
    let i = f.0 as usize;
    get_at(t, ARITY, i)
}

// Digit d of a word. The place is a constant in each arm, so that no arm divides.
fn digit(w: usize, d: usize) -> usize
    requires { d < 4 }
    ensures { result ≡ digit w d }
{
    match d {
        0 => w % RADIX,
        1 => w / PLACES[1] % RADIX,
        2 => w / PLACES[2] % RADIX,
        _ => w / PLACES[3] % RADIX,
    }
}

// Parameter i of a symbol.
pub fn param(t: &[u32], f: SymbolId, i: usize) -> SortId
    requires { HasParam t.now f.0 i }
    ensures { (result.0 ≡ get_or (symbol (context t.now) f.0).params i 0) × (result.0 < length (context t.now).sorts) }
{
    let word = get_at(t, PARAMS, 4 * f.0 as usize + i / 4);
    SortId(digit(word, i % 4) as u32)
}

pub fn dt_role(t: &[u32], f: SymbolId) -> DtRole
    requires { ContextSound t.now × (f.0 < length (context t.now).symbols) }
    ensures { RoleAt t.now f.0 result }
{
    let i = f.0 as usize;
    role_from(f.0, get_at(t, OWNER, i) as u32)
}

// ---- terms

pub fn op(t: &[u32], x: TermId) -> Op
    requires { ContextSound t.now × (x.0 < length (context t.now).terms) }
    ensures { OpAt t.now x.0 result }
{
    let i = x.0 as usize;
    Op::from(get_at(t, OP, i) as u32)
}

// The children of a term are the very stretch of the argument pool.
pub fn children(t: &[u32], x: TermId) -> &[u32]
    requires { ContextSound t.now × (x.0 < length (context t.now).terms) }
    ensures { result.now ≡ children (context t.now) x.0 }
{
    let i = x.0 as usize;
    words_at(t, POOL, get_at(t, OFFSET, i), get_at(t, OFFSET, i + 1))
}

pub fn sort_of(t: &[u32], x: TermId) -> SortId
    requires { ContextSound t.now × (x.0 < length (context t.now).terms) }
    ensures { (result.0 ≡ sort_of (context t.now) x.0) × (result.0 < length (context t.now).sorts) }
{
    match op(t, x) {
        Op::Eq => SortId(0),
        Op::Uninterpreted(f) => result_sort(t, f),
    }
}

// ---- making terms

// Are the given arguments a term's own? They are few, and mostly the same: `==` of slices would call a function for them.
fn same_args(args: &[u32], own: &[u32]) -> bool
    ensures { result ≡ same_list args.now own.now }
{
    args.len() == own.len() && args.iter().zip(own).all(|(a, b)| a == b)
}

// Is a term the operation over the given arguments? The operation is compared first.
fn is_app(t: &[u32], x: TermId, operation: Op, args: &[u32]) -> bool
    requires { ContextSound t.now × (x.0 < terms# t.now) }
    ensures { result ≡ same_term (op_meaning operation) args.now (term_at t.now x.0) }
{
    get_at(t, OP, x.0 as usize) == usize::from(operation) && same_args(args, children(t, x))
}

// The bucket of an operation over the given arguments.
fn hash_app(operation: Op, args: &[u32]) -> usize
    requires { op_code operation < buckets }
    ensures { (result ≡ bucket (op_code operation) args.now) × (result < buckets) }
{
    let mut h = usize::from(operation);
    for a in args {
        h = (31 * h + *a as usize) % BUCKETS;
    }
    h
}

// The term that is the operation over the given arguments: the terms of one bucket are asked, the newest first. (The links are
// followed, so the loop is no `for`: each word gives the next term, or is 0 at the last.)
fn find_app(t: &[u32], operation: Op, args: &[u32]) -> Option<TermId>
    requires { ContextSound t.now × (op_code operation ≤ symbols# t.now) }
    ensures { FindsApp t.now (op_code operation) args.now result }
{
    let mut k = get_at(t, BUCKET, hash_app(operation, args));
    while k != 0 {
        let x = TermId(k as u32 - 1);
        if is_app(t, x, operation, args) {
            return Some(x);
        }
        k = get_at(t, LINK, k - 1);
    }
    None
}

// The words are copied to a region, from a place of it on. (They are few. `copy_from_slice` would need C's `memmove`, and the library
// calls nothing but `memcpy` and `memset`.)
pub fn copy_words(t: &mut [u32], base: usize, at: usize, words: &[u32])
    requires { base + at + length words.now ≤ length t.old }
    ensures { t.new ≡ put_all t.old base at words.now }
{
    let from = base + at;
    for (i, word) in words.iter().enumerate() {
        t[from + i] = *word;
    }
}

// One more term, the n-th, whose arguments go to a place of the pool.
fn append_term(t: &mut [u32], n: usize, start: usize, operation: Op, args: &[u32])
    requires { Appendable t.old n start (op_code operation) args.now }
    ensures { Appended t.old (op_code operation) args.now t.new }
{
    let h = hash_app(operation, args);
    let older = get_at(t, BUCKET, h);
    put_at(t, LINK, n, older);
    put_at(t, BUCKET, h, n + 1);
    copy_words(t, POOL, start, args);
    put_at(t, OP, n, usize::from(operation));
    put_at(t, OFFSET, n + 1, start + args.len());
    put_at(t, COUNTS, TERMS, n + 1);
}

// The term of an operation over the given arguments: the old one, or a new one if there is room.
fn intern(t: &mut [u32], operation: Op, args: &[u32]) -> Result<TermId, NoRoom>
    requires { MayIntern t.old (op_code operation) args.now }
    ensures { MkApp t.old (op_meaning operation) args.now result t.new }
{
    if let Some(x) = find_app(t, operation, args) {
        return Ok(x);
    }
    let n = get_at(t, COUNTS, TERMS);
    if n == MAX_TERMS {
        return Err(NoRoom);
    }
    let start = get_at(t, OFFSET, n);
    if MAX_PLACES - start < args.len() {
        return Err(NoRoom);
    }
    append_term(t, n, start, operation, args);
    Ok(TermId(n as u32))
}

pub fn mk_app(t: &mut [u32], f: SymbolId, args: &[u32]) -> Result<TermId, NoRoom>
    requires { MayApply t.old f.0 args.now }
    ensures { MkApp t.old (Term.Uninterpreted f.0) args.now result t.new }
{
    intern(t, Op::Uninterpreted(f), args)
}

pub fn mk_eq(t: &mut [u32], a: TermId, b: TermId) -> Result<TermId, NoRoom>
    requires { MayEquate t.old a.0 b.0 }
    ensures { MkApp t.old Term.Eq (a.0 ∷ b.0 ∷ []) result t.new }
{
    let sides = [a.0, b.0];
    intern(t, Op::Eq, &sides)
}

// ---- undoing terms

// The newest term, the i-th, is taken back.
fn drop_term(t: &mut [u32], i: usize)
    requires { ContextSound t.old × (terms# t.old ≡ i + 1) }
    ensures { ContextSound t.new × (context t.new ≡ cut_terms i (context t.old)) }
{
    let x = TermId(i as u32);
    let h = hash_app(op(t, x), children(t, x));
    let older = get_at(t, LINK, i);
    put_at(t, BUCKET, h, older);
    put_at(t, COUNTS, TERMS, i);
}

// Back to the first n terms: what a refused full check has made is given back.
pub fn truncate(t: &mut [u32], n: usize)
    requires { ContextSound t.old × (n ≤ length (context t.old).terms) }
    ensures { ContextSound t.new × (context t.new ≡ cut_terms n (context t.old)) }
{
    for i in (n..get_at(t, COUNTS, TERMS)).rev() {
        drop_term(t, i);
    }
}

// ---- declarations

pub fn declare_sort(t: &mut [u32], datatype: bool) -> Result<(), NoRoom>
    requires { ContextSound t.old }
    ensures { Declares t.old (declare_sort (context t.old) (declared_node datatype)) result t.new }
{
    let n = get_at(t, COUNTS, SORTS);
    if n == MAX_SORTS {
        return Err(NoRoom);
    }
    let node = if datatype {
        SortNode::Datatype
    } else {
        SortNode::Uninterpreted
    };
    put_at(t, SORT, n, node as usize);
    put_at(t, COUNTS, SORTS, n + 1);
    Ok(())
}

// A number of a list of sorts, or 0 past its end.
fn sort_or_0(sorts: &[u32], i: usize) -> usize
    requires { AllBelow max_sorts sorts.now }
    ensures { (result ≡ get_or sorts.now i 0) × (result < max_sorts) }
{
    sorts.get(i).map_or(0, |s| *s as usize)
}

// Four sorts of a list in a word, from number 4 q on.
fn pack(sorts: &[u32], q: usize) -> u32
    requires { AllBelow max_sorts sorts.now × (q < 4) }
    ensures { result ≡ packed sorts.now q }
{
    let mut word = 0;
    for d in 0..4 {
        word += PLACES[d] * sort_or_0(sorts, 4 * q + d);
    }
    word as u32
}

// The word for the constructor that a symbol belongs to.
fn owner_word(owner: Option<SymbolId>) -> usize
    ensures { (result ≡ owner_code owner) × (result ≤ 4294967296) }
{
    owner.map_or(0, |c| c.0 as usize + 1)
}

// One more symbol, the n-th; a constructor, its tester and its selectors belong to it.
fn add_symbol(t: &mut [u32], n: usize, owner: Option<SymbolId>, res: SortId, params: &[u32])
    requires { SymbolRoom t.old n (owner_code owner) res.0 params.now }
    ensures { SymbolAdded t.old n (owner_code owner) res.0 params.now t.new }
{
    let words = [
        pack(params, 0),
        pack(params, 1),
        pack(params, 2),
        pack(params, 3),
    ];
    copy_words(t, PARAMS, 4 * n, &words);
    put_at(t, OWNER, n, owner_word(owner));
    put_at(t, RESULT, n, res.0 as usize);
    put_at(t, ARITY, n, params.len());
    put_at(t, COUNTS, SYMBOLS, n + 1);
}

pub fn declare_fun(t: &mut [u32], res: SortId, params: &[u32]) -> Result<(), NoRoom>
    requires { MayDeclare t.old res.0 params.now }
    ensures { Declares t.old (declare_fun (context t.old) res.0 params.now) result t.new }
{
    let n = get_at(t, COUNTS, SYMBOLS);
    if n == MAX_SYMBOLS {
        return Err(NoRoom);
    }
    add_symbol(t, n, None, res, params);
    Ok(())
}

// The selectors of constructor c, from symbol c + 2 on.
fn add_selectors(t: &mut [u32], c: SymbolId, dt: SortId, fields: &[u32])
    requires { SelectorRoom t.old c.0 dt.0 fields.now }
    ensures { SymbolsAdded t.old (selectors_from c.0 dt.0 0 fields.now) t.new }
{
    let own = [dt.0];
    let first = c.0 as usize + 2;
    for (i, field) in fields.iter().enumerate() {
        add_symbol(t, first + i, Some(c), SortId(*field), &own);
    }
}

// A constructor takes symbols for itself, its tester and each selector, in this order.
pub fn dt_add_constructor(t: &mut [u32], dt: SortId, fields: &[u32]) -> Result<(), NoRoom>
    requires { MayDeclare t.old dt.0 fields.now }
    ensures { Declares t.old (dt_add_constructor (context t.old) dt.0 fields.now) result t.new }
{
    let n = get_at(t, COUNTS, SYMBOLS);
    if MAX_SYMBOLS - n < fields.len() + 2 {
        return Err(NoRoom);
    }
    let c = SymbolId(n as u32);
    add_symbol(t, n, Some(c), dt, fields);
    add_symbol(t, n + 1, Some(c), SortId(0), &[dt.0]);
    add_selectors(t, c, dt, fields);
    Ok(())
}

// ---- constructors

// Does symbol s build datatype dt?
fn builds(t: &[u32], dt: SortId, s: SymbolId) -> bool
    requires { ContextSound t.now × (s.0 < length (context t.now).symbols) }
    ensures { result ≡ builds (context t.now) dt.0 s.0 }
{
    dt_role(t, s) == DtRole::Constructor && result_sort(t, s) == dt
}

// The lowest constructor of dt from symbol `from` on.
pub fn next_constructor(t: &[u32], dt: SortId, from: usize) -> Option<SymbolId>
    requires { ContextSound t.now × (from ≤ length (context t.now).symbols) }
    ensures { NextConstructor t.now dt.0 from result }
{
    for s in from..symbol_count(t) {
        let c = SymbolId(s as u32);
        if builds(t, dt, c) {
            return Some(c);
        }
    }
    None
}

pub fn dt_tester(c: SymbolId) -> SymbolId
    requires { c.0 < 4294967295 }
    ensures { result.0 ≡ dt_tester c.0 }
{
    SymbolId(c.0 + 1)
}

// The first selector of a constructor; the others follow it, one for each of its parameters.
pub fn first_selector(c: SymbolId) -> SymbolId
    requires { c.0 < 4294967294 }
    ensures { result.0 ≡ c.0 + 2 }
{
    SymbolId(c.0 + 2)
}

// ---- question 10

// Is a sort no datatype, or one that was found?
fn is_ready(t: &[u32], found: &[bool], s: SortId) -> bool
    requires { ContextSound t.now × (max_sorts ≤ length found.now) × (s.0 < length (context t.now).sorts) }
    ensures { result ≡ ready (context t.now) (marked found.now) s.0 }
{
    !is_datatype_sort(t, s) || found[s.0 as usize]
}

fn has_ready_fields(t: &[u32], found: &[bool], c: SymbolId) -> bool
    requires { ContextSound t.now × (max_sorts ≤ length found.now) × (c.0 < length (context t.now).symbols) }
    ensures { result ≡ has_ready_fields (context t.now) (marked found.now) c.0 }
{
    for i in 0..arity(t, c) {
        if !is_ready(t, found, param(t, c, i)) {
            return false;
        }
    }
    true
}

// Is the datatype of constructor c found by it now? Other symbols find none.
fn adds(t: &[u32], found: &[bool], c: SymbolId) -> bool
    requires { ContextSound t.now × (max_sorts ≤ length found.now) × (c.0 < length (context t.now).symbols) }
    ensures { result ≡ adds (context t.now) (marked found.now) c.0 }
{
    dt_role(t, c) == DtRole::Constructor
        && !is_ready(t, found, result_sort(t, c))
        && has_ready_fields(t, found, c)
}

// Marks the datatypes that the symbols find, in their order; one that is marked counts at once for those after it. Was any added?
fn mark_round(t: &[u32], found: &mut [bool]) -> bool
    requires { ContextSound t.now × Marks t.now found.old }
    ensures { MarkRound t.now found.old result found.new }
{
    let mut added = false;
    for s in 0..symbol_count(t) {
        let c = SymbolId(s as u32);
        if adds(t, found, c) {
            found[result_sort(t, c).0 as usize] = true;
            added = true;
        }
    }
    added
}

fn all_found(t: &[u32], found: &[bool]) -> bool
    requires { ContextSound t.now × (max_sorts ≤ length found.now) }
    ensures { result ≡ every (marked found.now) (datatypes (context t.now)) }
{
    for s in 0..sort_count(t) {
        if !is_ready(t, found, SortId(s as u32)) {
            return false;
        }
    }
    true
}

// Is each datatype inhabited? Each round but the last finds one, and Bool is none: at most as many rounds as sorts, each over all symbols.
pub fn all_grounded(t: &[u32]) -> bool
    requires { ContextSound t.now }
    ensures { result ≡ all_grounded (context t.now) }
{
    let mut found = [false; MAX_SORTS];
    while mark_round(t, &mut found) {}
    all_found(t, &found)
}

// How many argument places the terms take.
pub fn place_count(t: &[u32]) -> usize
    requires { ContextSound t.now }
    ensures { (result ≡ places (context t.now)) × (result ≤ max_places) }
{
    let n = get_at(t, COUNTS, TERMS);
    get_at(t, OFFSET, n)
}
