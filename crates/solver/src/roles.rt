// What a term is to the solver: the kind of its mark (specs/Memory/Table.antt, `term_kind`).
ghost use Rattle.std.specs.Prelude.{◌≡◌, ◌<◌, length};
ghost use Rattle.shinri_core.specs.Context.{symbol, is_datatype_sort};
ghost use Rattle.shinri_core.specs.Memory.Table.{context, ContextSound};
ghost use Rattle.solver.specs.Memory.Kinds.{mark_word};
ghost use Rattle.solver.specs.Memory.Table.{role_kind, term_kind};

use crate::layout::Kind;
use shinri_core::context::{dt_role, is_datatype_sort, op, result_sort};
use shinri_core::ids::{SymbolId, TermId};
use shinri_core::term::{DtRole, Op};

fn symbol_kind(t: &[u32], f: SymbolId) -> Option<Kind>
    requires { ContextSound t.now × (f.0 < length (context t.now).symbols) }
    ensures { mark_word result ≡ role_kind (symbol (context t.now) f.0).role
        (is_datatype_sort (context t.now) (symbol (context t.now) f.0).result) }
{
    let datatype = is_datatype_sort(t, result_sort(t, f));
    match dt_role(t, f) {
        DtRole::Constructor => Some(Kind::CtorApp),
        DtRole::Tester(_) => Some(Kind::TesterApp),
        DtRole::Selector(_, _) => {
            if datatype {
                Some(Kind::DtSelApp)
            } else {
                Some(Kind::SelApp)
            }
        }
        DtRole::Function => { if datatype { Some(Kind::DtFunApp) } else { None } }
    }
}

// The kind of a term's mark, if it is to be marked.
pub fn term_kind(t: &[u32], x: TermId) -> Option<Kind>
    requires { ContextSound t.now × (x.0 < length (context t.now).terms) }
    ensures { mark_word result ≡ term_kind (context t.now) x.0 }
{
    match op(t, x) {
        Op::Eq => None,
        Op::Uninterpreted(f) => symbol_kind(t, f),
    }
}
