// Answers and refusals (specs/Answer.antt).
ghost use Rattle.std.specs.Prelude.{ℕ, ◌+◌, ◌*◌, ◌≤◌, ◌<◌, ◌≡◌, List, [], ◌++◌, map, length, get_or};
ghost use Rattle.shinri_core.specs.Limits.{max_terms, max_symbols};
ghost use Rattle.theory.specs.Types.{InterfaceLeaf};
ghost use Rattle.theory.specs.Memory.Answer.{leaf_meaning, leaves, LeavesSound};
ghost use Rattle.solver.specs.Rules.{Conflict};
ghost use Rattle.solver.specs.Memory.Answer.{phase_meaning, split_atoms, split_phases, split_of, SplitSound};
ghost use Rattle.session.specs.declared.answer.Refusal.TheVariants.{NoRoom};
ghost use Rattle.session.specs.Text.{comma, joined, decimal};
ghost use Rattle.session.specs.Answer.{question, leaf_text, phase_text, check_text, answer_text};
ghost use Rattle.session.specs.Memory.Answers.{refusal_meaning, answer_meaning, Printable, Room, Written, parting, guards_text, line_text, longest_answer};

use crate::text::{decimal_length, write_byte, write_decimal, write_text};
use shinri_core::ids::TermId;
use shinri_core::limits::NoRoom;
use solver::answer::{Phase, atom_count, phase_count, split_atom, split_guard, split_phase};
use theory::types::{EqLeaf, TheoryJust, leaf, leaf_count};

// A no to one of the questions of a line.
#[derive(Clone, Copy, PartialEq, Eq)]
pub enum Refusal {
    Unreadable,
    Misplaced,
    Missing,
    Disagreeing,
    Registered,
    NotEquation,
    NotDisequality,
    NotCongruent,
    NotGrounded,
    NoRoom,
}

// The kind of an answer; the leaves of a conflict and the atoms, guards and phases of a split stand in the answer table.
#[derive(Clone, Copy, PartialEq, Eq)]
pub enum Answer {
    Ok,
    TermIs(TermId),
    Sat,
    Conflict,
    Split,
    Unknown,
}

// ---- the parts of an answer

// The number of the question.
impl From<Refusal> for u32 {
    ghost from_gives = { λ r n. n ≡ question (refusal_meaning r) };

    #[tactic(auto, unfolding(crate::specs::Answer::question, crate::specs::Memory::Answers::refusal_meaning))]
    fn from(r: Refusal) -> u32 {
        match r {
            Refusal::Unreadable => 3,
            Refusal::Misplaced => 4,
            Refusal::Missing => 5,
            Refusal::Disagreeing => 6,
            Refusal::Registered => 7,
            Refusal::NotEquation => 8,
            Refusal::NotDisequality => 13,
            Refusal::NotCongruent => 9,
            Refusal::NotGrounded => 10,
            Refusal::NoRoom => 11,
        }
    }
}

// No room for what a line makes is a no to question 11.
impl From<NoRoom> for Refusal {
    ghost from_gives = { λ _ r. r ≡ NoRoom };

    fn from(_no: NoRoom) -> Refusal {
        Refusal::NoRoom
    }
}

// The comma before the i-th of a list; the first has none.
fn write_parting(buf: &mut [u8], at: usize, i: usize) -> usize
    requires { Room buf.old at (parting i) }
    ensures { Written buf.old at (parting i) buf.new result }
{
    if i == 0 {
        at
    } else {
        write_byte(buf, at, b',')
    }
}

// `i`, the theory, `.` and the tag.
fn write_interface(buf: &mut [u8], at: usize, j: TheoryJust) -> usize
    requires { Room buf.old at (leaf_text (InterfaceLeaf j.theory j.tag)) }
    ensures { Written buf.old at (leaf_text (InterfaceLeaf j.theory j.tag)) buf.new result }
{
    let first = write_byte(buf, at, b'i');
    let dot = write_decimal(buf, first, j.theory as u32);
    let second = write_byte(buf, dot, b'.');
    write_decimal(buf, second, j.tag)
}

// ---- a list

// What an answer lists, parted by commas: how many stand in the answer table, each of them, and its text.
trait Element: Copy {
    // the table can be read
    ghost sound: { List ℕ → Type 0 };

    ghost texts: { List ℕ → List (List ℕ) };

    ghost most: { ℕ };

    ghost text: { Self → List ℕ };

    ghost longest: { ℕ };

    fn count(o: &[u32]) -> usize
        requires { sound o.now }
        ensures { (result ≡ length (texts o.now)) × (result ≤ most) × (most ≤ max_terms) };

    fn read(o: &[u32], i: usize) -> Self
        requires { sound o.now × (i < length (texts o.now)) }
        ensures { text result ≡ get_or (texts o.now) i [] };

    fn len(self) -> usize
        ensures { (result ≡ length (text self)) × (result ≤ longest) × (longest ≤ 22) };

    fn write(self, buf: &mut [u8], at: usize) -> usize
        requires { Room buf.old at (text self) }
        ensures { Written buf.old at (text self) buf.new result };
}

// The leaves of a conflict: `a` and a literal, or an interface leaf.
impl Element for EqLeaf {
    ghost sound = { LeavesSound };

    ghost texts = { λ o. map leaf_text (leaves o) };

    ghost most = { max_terms };

    ghost text = { λ l. leaf_text (leaf_meaning l) };

    ghost longest = { 22 };

    fn count(o: &[u32]) -> usize {
        leaf_count(o)
    }

    fn read(o: &[u32], i: usize) -> EqLeaf {
        leaf(o, i)
    }

    fn len(self) -> usize {
        match self {
            EqLeaf::Asserted(p) => 1 + decimal_length(p.0),
            EqLeaf::Interface(j) => 2 + decimal_length(j.theory as u32) + decimal_length(j.tag),
        }
    }

    fn write(self, buf: &mut [u8], at: usize) -> usize {
        match self {
            EqLeaf::Asserted(p) => {
                let literal = write_byte(buf, at, b'a');
                write_decimal(buf, literal, p.0)
            }
            EqLeaf::Interface(j) => write_interface(buf, at, j),
        }
    }
}

// The atoms of a split, by their numbers.
impl Element for TermId {
    ghost sound = { SplitSound };

    ghost texts = { λ o. map decimal (split_atoms o) };

    ghost most = { max_symbols };

    ghost text = { λ x. decimal x.0 };

    ghost longest = { 10 };

    fn count(o: &[u32]) -> usize {
        atom_count(o)
    }

    fn read(o: &[u32], i: usize) -> TermId {
        split_atom(o, i)
    }

    fn len(self) -> usize {
        decimal_length(self.0)
    }

    fn write(self, buf: &mut [u8], at: usize) -> usize {
        write_decimal(buf, at, self.0)
    }
}

// The phases of a split: `1` or `-`.
impl Element for Phase {
    ghost sound = { SplitSound };

    ghost texts = { λ o. map phase_text (split_phases o) };

    ghost most = { max_symbols };

    ghost text = { λ p. phase_text (phase_meaning p) };

    ghost longest = { 1 };

    fn count(o: &[u32]) -> usize {
        phase_count(o)
    }

    fn read(o: &[u32], i: usize) -> Phase {
        split_phase(o, i)
    }

    fn len(self) -> usize {
        1
    }

    fn write(self, buf: &mut [u8], at: usize) -> usize {
        match self {
            Phase::Positive => write_byte(buf, at, b'1'),
            Phase::NoPhase => write_byte(buf, at, b'-'),
        }
    }
}

// The elements, parted by commas.
fn write_list<T: Element>(o: &[u32], buf: &mut [u8], at: usize) -> usize
    requires { T.sound o.now × Room buf.old at (joined comma (T.texts o.now)) }
    ensures { Written buf.old at (joined comma (T.texts o.now)) buf.new result }
{
    let mut end = at;
    for i in 0..T::count(o) {
        let next = write_parting(buf, end, i);
        end = T::read(o, i).write(buf, next);
    }
    end
}

fn list_length<T: Element>(o: &[u32]) -> usize
    requires { T.sound o.now }
    ensures { (result ≡ length (joined comma (T.texts o.now))) × (result ≤ (1 + T.longest) * T.most) }
{
    let mut sum = 0;
    for i in 0..T::count(o) {
        sum += parting_length(i) + T::read(o, i).len();
    }
    sum
}

// The guard of a split, if there is one.
fn write_guards(o: &[u32], buf: &mut [u8], at: usize) -> usize
    requires { SplitSound o.now × Room buf.old at (guards_text o.now) }
    ensures { Written buf.old at (guards_text o.now) buf.new result }
{
    match split_guard(o) {
        Some(l) => write_decimal(buf, at, l.0),
        None => at,
    }
}

// ---- an answer

// A name and a number.
fn write_named(buf: &mut [u8], at: usize, name: &[u8], n: u32) -> usize
    requires { Room buf.old at (name.now ++ decimal n) }
    ensures { Written buf.old at (name.now ++ decimal n) buf.new result }
{
    let number = write_text(buf, at, name);
    write_decimal(buf, number, n)
}

fn write_conflict(o: &[u32], buf: &mut [u8], at: usize) -> usize
    requires { LeavesSound o.now × Room buf.old at (check_text (Conflict (leaves o.now))) }
    ensures { Written buf.old at (check_text (Conflict (leaves o.now))) buf.new result }
{
    let leaves = write_text(buf, at, b"conflict=");
    write_list::<EqLeaf>(o, buf, leaves)
}

fn write_split(o: &[u32], buf: &mut [u8], at: usize) -> usize
    requires { SplitSound o.now × Room buf.old at (check_text (split_of o.now)) }
    ensures { Written buf.old at (check_text (split_of o.now)) buf.new result }
{
    let atoms = write_text(buf, at, b"split=");
    let first = write_list::<TermId>(o, buf, atoms);
    let guards = write_byte(buf, first, b';');
    let second = write_guards(o, buf, guards);
    let phases = write_byte(buf, second, b';');
    write_list::<Phase>(o, buf, phases)
}

// The answer without its LF.
#[tactic(auto, unfolding(crate::specs::Memory::Answers::texts_told))]
fn write_unended(a: Result<Answer, Refusal>, o: &[u32], buf: &mut [u8], at: usize) -> usize
    requires { Printable a o.now × Room buf.old at (answer_text (answer_meaning a o.now)) }
    ensures { Written buf.old at (answer_text (answer_meaning a o.now)) buf.new result }
{
    match a {
        Ok(Answer::Ok) => write_text(buf, at, b"ok=1"),
        Ok(Answer::TermIs(t)) => write_named(buf, at, b"term=", t.0),
        Ok(Answer::Sat) => write_text(buf, at, b"sat=1"),
        Ok(Answer::Conflict) => write_conflict(o, buf, at),
        Ok(Answer::Split) => write_split(o, buf, at),
        Ok(Answer::Unknown) => write_text(buf, at, b"unknown=1"),
        Err(r) => write_named(buf, at, b"refused=", u32::from(r)),
    }
}

// The answer line, with its LF.
pub fn write_answer(a: Result<Answer, Refusal>, o: &[u32], buf: &mut [u8], at: usize) -> usize
    requires { Printable a o.now × Room buf.old at (line_text a o.now) }
    ensures { Written buf.old at (line_text a o.now) buf.new result }
{
    let end = write_unended(a, o, buf, at);
    write_byte(buf, end, b'\n')
}

// ---- how long it is

// Each gives how long the text is that its like above writes; the parts promise a bound too, so that no sum overflows.

fn parting_length(i: usize) -> usize
    ensures { (result ≡ length (parting i)) × (result ≤ 1) }
{
    if i == 0 { 0 } else { 1 }
}

fn guards_length(o: &[u32]) -> usize
    requires { SplitSound o.now }
    ensures { (result ≡ length (guards_text o.now)) × (result ≤ 10) }
{
    match split_guard(o) {
        Some(l) => decimal_length(l.0),
        None => 0,
    }
}

// `conflict=` and the leaves.
fn conflict_length(o: &[u32]) -> usize
    requires { LeavesSound o.now }
    ensures { (result ≡ length (check_text (Conflict (leaves o.now)))) × (result ≤ 9 + 23 * max_terms) }
{
    9 + list_length::<EqLeaf>(o)
}

// `split=`, two `;` and the three lists.
fn split_length(o: &[u32]) -> usize
    requires { SplitSound o.now }
    ensures { (result ≡ length (check_text (split_of o.now))) × (result ≤ 18 + 13 * max_symbols) }
{
    8 + list_length::<TermId>(o) + guards_length(o) + list_length::<Phase>(o)
}

// The answer without its LF; none is longer than a conflict can be.
#[tactic(auto, unfolding(crate::specs::Memory::Answers::texts_told))]
fn unended_length(a: Result<Answer, Refusal>, o: &[u32]) -> usize
    requires { Printable a o.now }
    ensures { (result ≡ length (answer_text (answer_meaning a o.now))) × (result ≤ 9 + 23 * max_terms) }
{
    match a {
        Ok(Answer::Ok) => 4,
        Ok(Answer::TermIs(t)) => 5 + decimal_length(t.0),
        Ok(Answer::Sat) => 5,
        Ok(Answer::Conflict) => conflict_length(o),
        Ok(Answer::Split) => split_length(o),
        Ok(Answer::Unknown) => 9,
        Err(r) => 8 + decimal_length(u32::from(r)),
    }
}

// The answer line, with its LF: so many bytes, known before the first is written.
pub fn line_length(a: Result<Answer, Refusal>, o: &[u32]) -> usize
    requires { Printable a o.now }
    ensures { (result ≡ length (line_text a o.now)) × (result ≤ longest_answer) }
{
    unended_length(a, o) + 1
}
