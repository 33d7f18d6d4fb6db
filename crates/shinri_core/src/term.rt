// What a term applies and what a symbol is for, and the numbers that the table holds for them (term.rs, and DtRole of
// context.rs).
ghost use Rattle.std.specs.Prelude.{◌≡◌, ◌+◌, ◌≤◌};
ghost use Rattle.shinri_core.specs.Memory.Table.{op_of, role_of};
ghost use Rattle.shinri_core.specs.Memory.Codes.{op_code, op_meaning, role_meaning, OpBelow, RoleBelow};

use crate::ids::SymbolId;

#[derive(Clone, Copy, PartialEq, Eq, Debug)]
pub enum Op {
    Eq,
    Uninterpreted(SymbolId),
}

#[derive(Clone, Copy, PartialEq, Eq, Debug)]
pub enum DtRole {
    Constructor,
    Tester(SymbolId),
    Selector(SymbolId, u32),
    Function,
}

impl From<u32> for Op {
    ghost from_gives = { λ word op. (op_meaning op ≡ op_of word) × OpBelow word op };

    fn from(word: u32) -> Op {
        if word == 0 {
            Op::Eq
        } else {
            Op::Uninterpreted(SymbolId(word - 1))
        }
    }
}

impl From<Op> for usize {
    ghost from_gives = { λ op code. code ≡ op_code op };

    fn from(op: Op) -> usize {
        match op {
            Op::Eq => 0,
            Op::Uninterpreted(f) => f.0 as usize + 1,
        }
    }
}

// A constructor's tester stands right after it, then its selectors. (It is no `From`, since it reads two numbers and asks that one
// fits the other.)
pub fn role_from(symbol: u32, owner: u32) -> DtRole
    requires { owner ≤ symbol + 1 }
    ensures { (role_meaning result ≡ role_of symbol owner) × RoleBelow (symbol + 1) result }
{
    if owner == 0 {
        return DtRole::Function;
    }
    let ctor = owner - 1;
    if symbol == ctor {
        return DtRole::Constructor;
    }
    if symbol - ctor == 1 {
        return DtRole::Tester(SymbolId(ctor));
    }
    DtRole::Selector(SymbolId(ctor), symbol - ctor - 2)
}
