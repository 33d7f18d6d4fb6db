// Unequal terms: `differ`, and the rule of a full check.
ghost use Rattle.solver.specs.Memory.Disequalities.{Differable, Differs, SidesAsked, SidesConflict, UnequalAsked, PairAsked, PairConflict, UnequalClash};

use crate::answer::TCheck;
use crate::layout::{COUNTS, ENTRY, MAX_LITS, RECORDS, UNEQUAL};
use crate::levels::enter;
use crate::records::atom;
use shinri_core::context::children;
use shinri_core::ids::{Lit, TermId};
use shinri_core::table::get_at;
use theory::eq_engine::{are_equal, explain};
use theory::types::{EqLeaf, clear_leaves, push_leaf};

// Records a negative equation literal, unless it stands there.
pub fn differ(s: &mut [u32], l: Lit)
    requires { Differable s.old l.0 }
    ensures { Differs s.old l.0 s.new }
{
    let v = l.var();
    let x = atom(s, v);
    enter(s, UNEQUAL + v.0 as usize, x.0 as usize);
}

// The conflict of a negative literal whose equation has equal sides, or `Sat`. The leaves are the literal, then those of the equality of
// the first side with the second.
fn sides_conflict(t: &[u32], e: &[u32], l: Lit, x: TermId, out: &mut [u32]) -> TCheck
    requires { SidesAsked t.now e.now x.0 out.old }
    ensures { SidesConflict t.now e.now l.0 x.0 result out.new }
{
    let sides = children(t, x);
    let a = TermId(sides[0]);
    let b = TermId(sides[1]);
    if !are_equal(e, a, b) {
        return TCheck::Sat;
    }
    clear_leaves(out);
    push_leaf(out, EqLeaf::Asserted(l));
    explain(e, a, b, out);
    TCheck::Conflict
}

// The conflict of an entry, if it is one of unequal terms, or `Sat`.
fn pair_conflict(t: &[u32], e: &[u32], s: &[u32], i: usize, out: &mut [u32]) -> TCheck
    requires { PairAsked t.now e.now s.now i out.old }
    ensures { PairConflict t.now e.now s.now i result out.new }
{
    let word = get_at(s, ENTRY, i);
    let key = word / MAX_LITS;
    if key < UNEQUAL {
        return TCheck::Sat;
    }
    let l = Lit((2 * (key - UNEQUAL) + 1) as u32);
    let x = TermId((word % MAX_LITS) as u32);
    sides_conflict(t, e, l, x, out)
}

// The first entry of the record of unequal terms whose sides are equal now.
pub fn disequality_clash(t: &[u32], e: &[u32], s: &[u32], out: &mut [u32]) -> TCheck
    requires { UnequalAsked t.now e.now s.now out.old }
    ensures { UnequalClash t.now e.now s.now result out.new }
{
    for i in 0..get_at(s, COUNTS, RECORDS) {
        let r = pair_conflict(t, e, s, i, out);
        if r != TCheck::Sat {
            return r;
        }
    }
    TCheck::Sat
}
