// Reading a line: question 3 whole (specs/Line.antt, specs/Memory/Commands.antt).
ghost use Rattle.std.specs.Prelude.{◌≡◌, cond, ℕ, List, [], ◌∷◌, ◌≤◌, length, take, eqb, Some};
ghost use Rattle.shinri_core.specs.Lists.{first, same_list};
ghost use Rattle.session.specs.Line as Line;
ghost use Rattle.session.specs.Memory.Lines.{KeyRoom};
ghost use Rattle.session.specs.Memory.Commands.{max_numbers, list_key, one_key, pair_key, key_meaning, others, OthersFit, NumbersStand, ReadsKey, ReadsAs, ReadsAlone, ReadsLine};

use crate::numbers::read_numbers;
use crate::reader::first_byte;
use shinri_core::ids::{Lit, SortId, SymbolId, TermId, Var};
use theory::types::TheoryJust;

// A line that reads, or that does not. Where it has a list of numbers behind its first, it is held how many: they stand in the table of
// numbers from its second word on. (A slice of them would borrow the table, and no clause could say what the table holds after the call.)
#[derive(Clone, Copy)]
pub enum Command {
    Unreadable,
    DeclareSort(bool),
    DeclareCtor(SortId, usize),
    DeclareFun(SortId, usize),
    Close,
    MkTerm(SymbolId, usize),
    MkEq(TermId, TermId),
    Register(Var, TermId),
    Equate(Lit),
    Cong(TermId, TermId),
    Iface(TermId, TermId, TheoryJust),
    Assert(Lit),
    Differ(Lit),
    Push,
    Pop(u32),
    Check(bool),
}

// Bytes of the longest keys and the equals sign behind them.
const KEY_ROOM: usize = 7;

// ---- keys

// The keys of one number or more.
#[derive(Clone, Copy, PartialEq, Eq)]
pub enum ListKey {
    Ctor,
    Fun,
    Term,
}

// The keys of one number.
#[derive(Clone, Copy, PartialEq, Eq)]
pub enum OneKey {
    Close,
    Equate,
    Assert,
    Differ,
    Push,
    Pop,
    Check,
}

// The keys of two numbers.
#[derive(Clone, Copy, PartialEq, Eq)]
pub enum PairKey {
    Eq,
    Var,
    Cong,
}

// The fifteen keys by how many numbers they take.
#[derive(Clone, Copy, PartialEq, Eq)]
pub enum Key {
    Sort,
    List(ListKey),
    One(OneKey),
    Pair(PairKey),
    Iface,
}

// Is it this text? Texts of keys are short and known, so the comparison is spelled out for each: `==` of slices would call a function.
fn same_text(k: &[u8], text: &[u8]) -> bool
    ensures { result ≡ same_list k.now text.now }
{
    k.len() == text.len() && k.iter().zip(text).all(|(a, b)| a == b)
}

// The key if k is its text, else what the keys behind it are found to be.
fn key_or(k: &[u8], text: &[u8], key: Key, other: Option<Key>) -> Option<Key>
    ensures { result ≡ cond (same_list k.now text.now) (Some key) other }
{
    if same_text(k, text) { Some(key) } else { other }
}

// The keys in the order of the definition, tried from the last to the first: an earlier one takes the place of a later one.
fn read_key(k: &[u8]) -> Option<Key>
    ensures { ReadsKey (first (λ x. same_list k.now (Line.key_text x)) Line.keys) result }
{
    let check = key_or(k, b"check", Key::One(OneKey::Check), None);
    let pop = key_or(k, b"pop", Key::One(OneKey::Pop), check);
    let push = key_or(k, b"push", Key::One(OneKey::Push), pop);
    let differ = key_or(k, b"differ", Key::One(OneKey::Differ), push);
    let assert = key_or(k, b"assert", Key::One(OneKey::Assert), differ);
    let iface = key_or(k, b"iface", Key::Iface, assert);
    let cong = key_or(k, b"cong", Key::Pair(PairKey::Cong), iface);
    let equate = key_or(k, b"equate", Key::One(OneKey::Equate), cong);
    let var = key_or(k, b"var", Key::Pair(PairKey::Var), equate);
    let eq = key_or(k, b"eq", Key::Pair(PairKey::Eq), var);
    let term = key_or(k, b"term", Key::List(ListKey::Term), eq);
    let close = key_or(k, b"close", Key::One(OneKey::Close), term);
    let fun = key_or(k, b"fun", Key::List(ListKey::Fun), close);
    let ctor = key_or(k, b"ctor", Key::List(ListKey::Ctor), fun);
    key_or(k, b"sort", Key::Sort, ctor)
}

// ---- the numbers of a key

// A first number, and how many stand behind it.
#[tactic(auto, unfolding(crate::specs::Line::by_key, crate::specs::Line::some_or_more))]
fn by_list(k: ListKey, x: u32, more: usize) -> Command
    ensures { (ns : List ℕ) → OthersFit more (length ns) → ReadsAs (Line.by_key (list_key k) (x ∷ others more ns)) result ns }
{
    match k {
        ListKey::Ctor => Command::DeclareCtor(SortId(x), more),
        ListKey::Fun => Command::DeclareFun(SortId(x), more),
        ListKey::Term => Command::MkTerm(SymbolId(x), more),
    }
}

// 0 or 1 after `check`.
#[tactic(auto, unfolding(crate::specs::Line::effort))]
fn effort(x: u32) -> Command
    ensures { ReadsAlone (Line.effort x) result }
{
    match x {
        1 => Command::Check(true),
        0 => Command::Check(false),
        _ => Command::Unreadable,
    }
}

// A command if the number is 1.
fn only_one(c: Command, x: u32) -> Command
    ensures { result ≡ cond (eqb x 1) c Command.Unreadable }
{
    if x == 1 { c } else { Command::Unreadable }
}

// `close` and `push` are written only with 1.
#[tactic(auto, unfolding(crate::specs::Line::by_key, crate::specs::Line::just_one, crate::specs::Line::only_one))]
fn by_one(k: OneKey, x: u32) -> Command
    ensures { ReadsAlone (Line.by_key (one_key k) (x ∷ [])) result }
{
    match k {
        OneKey::Close => only_one(Command::Close, x),
        OneKey::Equate => Command::Equate(Lit(x)),
        OneKey::Assert => Command::Assert(Lit(x)),
        OneKey::Differ => Command::Differ(Lit(x)),
        OneKey::Push => only_one(Command::Push, x),
        OneKey::Pop => Command::Pop(x),
        OneKey::Check => effort(x),
    }
}

#[tactic(auto, unfolding(crate::specs::Line::by_key, crate::specs::Line::just_two))]
fn by_pair(k: PairKey, x: u32, y: u32) -> Command
    ensures { ReadsAlone (Line.by_key (pair_key k) (x ∷ y ∷ [])) result }
{
    match k {
        PairKey::Eq => Command::MkEq(TermId(x), TermId(y)),
        PairKey::Var => Command::Register(Var(x), TermId(y)),
        PairKey::Cong => Command::Cong(TermId(x), TermId(y)),
    }
}

// H at most 65,535.
#[tactic(auto, unfolding(crate::specs::Line::iface))]
fn iface(t: u32, u: u32, h: u32, g: u32) -> Command
    ensures { ReadsAlone (Line.iface t u h g) result }
{
    if h > 65535 {
        return Command::Unreadable;
    }
    let just = TheoryJust {
        theory: h as u16,
        tag: g,
    };
    Command::Iface(TermId(t), TermId(u), just)
}

// The first n numbers of the table, after a key: each asks for its count of them.
fn by_key(k: Key, n: usize, numbers: &[u32]) -> Command
    requires { NumbersStand n numbers.now }
    ensures { ReadsAs (Line.by_key (key_meaning k) (take n numbers.now)) result numbers.now }
{
    match k {
        Key::Sort => Command::Unreadable,
        Key::List(l) => by_list(l, numbers[0], n - 1),
        Key::One(o) => {
            if n != 1 {
                return Command::Unreadable;
            }
            by_one(o, numbers[0])
        }
        Key::Pair(p) => {
            if n != 2 {
                return Command::Unreadable;
            }
            by_pair(p, numbers[0], numbers[1])
        }
        Key::Iface => {
            if n != 4 {
                return Command::Unreadable;
            }
            iface(numbers[0], numbers[1], numbers[2], numbers[3])
        }
    }
}

// ---- the value

// The letter of a sort.
fn letter_sort(v: &[u8]) -> Command
    ensures { ReadsAlone (Line.letter_sort v.now) result }
{
    if v == b"d".as_slice() {
        return Command::DeclareSort(true);
    }
    if v == b"u".as_slice() {
        return Command::DeclareSort(false);
    }
    Command::Unreadable
}

// Only the key of a sort takes a letter.
fn by_value(k: Key, v: &[u8], numbers: &mut [u32]) -> Command
    requires { max_numbers ≤ length numbers.old }
    ensures { ReadsAs (Line.by_value (key_meaning k) v.now) result numbers.new }
{
    match k {
        Key::Sort => letter_sort(v),
        _ => {
            let Some(n) = read_numbers(v, numbers) else {
                return Command::Unreadable;
            };
            by_key(k, n, numbers)
        }
    }
}

// ---- the line

// How many bytes of a line are looked at for the equals sign: no key has more than six.
fn key_room(line: &[u8]) -> usize
    ensures { KeyRoom line.now result }
{
    line.len().min(KEY_ROOM)
}

// Question 3: does a line read? Its numbers go to the table.
pub fn read_line(line: &[u8], numbers: &mut [u32]) -> Command
    requires { max_numbers ≤ length numbers.old }
    ensures { ReadsLine line.now result numbers.new }
{
    let Some(at) = first_byte(&line[..key_room(line)], 0, b'=') else {
        return Command::Unreadable;
    };
    let Some(k) = read_key(&line[..at]) else {
        return Command::Unreadable;
    };
    by_value(k, &line[at + 1..], numbers)
}
