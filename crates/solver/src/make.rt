// Terms made in a check, and lemmas handed out.
ghost use Rattle.std.specs.Prelude.{◌≡◌, ◌≤◌, ◌<◌, length};
ghost use Rattle.shinri_core.specs.Limits.{max_terms};
ghost use Rattle.shinri_core.specs.Term.{Constructor, Function};
ghost use Rattle.shinri_core.specs.Context.{symbol};
ghost use Rattle.shinri_core.specs.Memory.Table.{context};
ghost use Rattle.theory.specs.Memory.Answer.{answer_size};
ghost use Rattle.solver.specs.State.{mint};
ghost use Rattle.solver.specs.Memory.Table.{SolverSound};
ghost use Rattle.solver.specs.Memory.Making.{Makeable, MakesTerm, HandsOut};

use crate::answer::{TCheck, write_lemma};
use crate::layout::EMITTED;
use crate::work::mark;
use shinri_core::context::mk_app;
use shinri_core::ids::{Lit, SymbolId, TermId};
use shinri_core::limits::NoRoom;
use shinri_core::table::{get_at, put_at};

// Makes and marks an application of a constructor, a selector or a tester.
pub fn mint(
    t: &mut [u32],
    e: &[u32],
    w: &mut [u32],
    f: SymbolId,
    args: &[u32],
) -> Result<TermId, NoRoom>
    requires { Makeable t.old e.now w.old f.0 args.now × ((symbol (context t.old) f.0).role ≡ Function → ⊥) }
    ensures { MakesTerm (λ s. mint s f.0 args.now) ((symbol (context t.old)
        f.0).role ≡ Constructor → ⊥) t.old e.now w.old result t.new w.new }
{
    let x = mk_app(t, f, args)?;
    mark(t, e, w, x.0 as usize);
    Ok(x)
}

// Hands out a lemma, unless that was done before: `Sat` stands for a lemma that is passed over.
pub fn hand_out(s: &mut [u32], x: TermId, g: Option<Lit>, out: &mut [u32]) -> TCheck
    requires { SolverSound s.old × (x.0 < max_terms) × (answer_size ≤ length out.old) }
    ensures { HandsOut x.0 g s.old result s.new out.new }
{
    let i = x.0 as usize;
    if get_at(s, EMITTED, i) != 0 {
        return TCheck::Sat;
    }
    put_at(s, EMITTED, i, 1);
    write_lemma(out, x, g);
    TCheck::Split
}
