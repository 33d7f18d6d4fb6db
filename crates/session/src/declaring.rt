// The lines before `close`: `sort`, `ctor`, `fun`.
ghost use Rattle.std.specs.Prelude.{◌≡◌, ◌≤◌, length};
ghost use Rattle.shinri_core.specs.Limits.{max_params};
ghost use Rattle.shinri_core.specs.Memory.Codes.{declared_node};
ghost use Rattle.shinri_core.specs.Memory.Table.{ContextSound};
ghost use Rattle.session.specs.Line as Line;
ghost use Rattle.session.specs.Memory.Sessions.{AnswersCore};

use crate::answer::{Answer, Refusal};
use crate::questions::sorts_exist;
use shinri_core::context::{declare_fun, declare_sort, dt_add_constructor, is_datatype_sort};
use shinri_core::ids::SortId;

pub fn sort_line(c: &mut [u32], closed: bool, datatype: bool) -> Result<Answer, Refusal>
    requires { ContextSound c.old }
    ensures { AnswersCore closed (Line.DeclareSort (declared_node datatype)) c.old result c.new }
{
    if closed {
        return Err(Refusal::Misplaced);
    }
    declare_sort(c, datatype)?;
    Ok(Answer::Ok)
}

pub fn ctor_line(c: &mut [u32], closed: bool, dt: SortId, fields: &[u32]) -> Result<Answer, Refusal>
    requires { ContextSound c.old × (length fields.now ≤ max_params) }
    ensures { AnswersCore closed (Line.DeclareCtor dt.0 fields.now) c.old result c.new }
{
    if closed {
        return Err(Refusal::Misplaced);
    }
    if !sorts_exist(c, dt, fields) {
        return Err(Refusal::Missing);
    }
    if !is_datatype_sort(c, dt) {
        return Err(Refusal::Disagreeing);
    }
    dt_add_constructor(c, dt, fields)?;
    Ok(Answer::Ok)
}

pub fn fun_line(c: &mut [u32], closed: bool, res: SortId, params: &[u32]) -> Result<Answer, Refusal>
    requires { ContextSound c.old × (length params.now ≤ max_params) }
    ensures { AnswersCore closed (Line.DeclareFun res.0 params.now) c.old result c.new }
{
    if closed {
        return Err(Refusal::Misplaced);
    }
    if !sorts_exist(c, res, params) {
        return Err(Refusal::Missing);
    }
    declare_fun(c, res, params)?;
    Ok(Answer::Ok)
}
