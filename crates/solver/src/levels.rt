// The records by levels: push and pop on the caller's mark counts, entries, and record_tester.
ghost use Rattle.std.specs.Prelude.{◌≤◌, ◌<◌};
ghost use Rattle.shinri_core.specs.Limits.{max_levels};
ghost use Rattle.solver.specs.Memory.Table.{records#, SolverSound};
ghost use Rattle.solver.specs.Memory.Levels.{MarksSound, RecordsSound, Opened, Dropped, Popped, Recordable, NewEntry, Entered, Enters, TesterRecordable, Recorded};

use crate::layout::{COUNTS, ENTRY, LASTING, MAX_LITS, RECORDED, RECORDS};
use shinri_core::ids::{Lit, TermId};
use shinri_core::limits::MAX_TERMS;
use shinri_core::table::{get_at, put_at};

// How many levels are open, and for each how many entries the records had when it began: the session keeps the counts, in fixed memory.
#[derive(Clone, Copy)]
pub struct TesterMarks {
    pub levels: usize,
    pub counts: [u32; 64],
}

// ---- push

// One level more, which begins now.
pub fn opened(s: &[u32], m: TesterMarks) -> TesterMarks
    requires { SolverSound s.now × MarksSound s.now m × (m.levels < max_levels) }
    ensures { Opened s.now m result }
{
    let n = get_at(s, COUNTS, RECORDS);
    let k = m.levels;
    let mut r = m;
    r.counts[k] = n as u32;
    r.levels = k + 1;
    r
}

// Opens a level. A thin function on the counts lent, over `opened`: so the scope names this form.
pub fn push(s: &[u32], m: &mut TesterMarks)
    requires { SolverSound s.now × MarksSound s.now m.old × (m.old.levels < max_levels) }
    ensures { Opened s.now m.old m.new }
{
    *m = opened(s, *m);
}

// ---- pop

// Drops the entries from n on; the newest goes first.
fn drop_records(s: &mut [u32], n: usize)
    requires { RecordsSound s.old × (n ≤ records# s.old) }
    ensures { Dropped s.old n s.new }
{
    for i in (n..get_at(s, COUNTS, RECORDS)).rev() {
        let key = get_at(s, ENTRY, i) / MAX_LITS;
        put_at(s, RECORDED, key, 0);
    }
    put_at(s, COUNTS, RECORDS, n);
}

// The counts once the levels above `to` are closed and their entries dropped.
pub fn closed(s: &mut [u32], m: TesterMarks, to: usize) -> TesterMarks
    requires { RecordsSound s.old × MarksSound s.old m }
    ensures { Popped s.old m to s.new result }
{
    if m.levels <= to {
        return m;
    }
    let n = m.counts[to];
    drop_records(s, n as usize);
    let mut r = m;
    r.levels = to;
    r
}

// Closes the levels above `to`: thin, over `closed`, likewise.
pub fn pop(s: &mut [u32], m: &mut TesterMarks, to: usize)
    requires { RecordsSound s.old × MarksSound s.old m.old }
    ensures { Popped s.old m.old to s.new m.new }
{
    *m = closed(s, *m, to);
}

// ---- an entry

// One entry more, for a key that has none, with r beside it.
fn append_record(s: &mut [u32], key: usize, r: usize)
    requires { NewEntry s.old key r }
    ensures { Entered s.old key r s.new }
{
    let n = get_at(s, COUNTS, RECORDS);
    put_at(s, RECORDED, key, 1);
    put_at(s, ENTRY, n, key * MAX_LITS + r);
    put_at(s, COUNTS, RECORDS, n + 1);
}

// The same, unless the key has an entry.
pub fn enter(s: &mut [u32], key: usize, r: usize)
    requires { Recordable s.old key r }
    ensures { Enters s.old key r s.new }
{
    if get_at(s, RECORDED, key) == 0 {
        append_record(s, key, r);
    }
}

// ---- record_tester

// A positive tester goes into the lasting record and the level record, a negative one into its own.
pub fn record_tester(s: &mut [u32], x: TermId, l: Lit, positive: bool)
    requires { TesterRecordable s.old x.0 l.0 }
    ensures { Recorded positive s.old x.0 l.0 s.new }
{
    let i = x.0 as usize;
    if positive {
        put_at(s, LASTING, i, 1);
        enter(s, i, l.0 as usize);
    } else {
        enter(s, i + MAX_TERMS, l.0 as usize);
    }
}
