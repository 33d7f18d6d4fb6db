// Numbers of terms, sorts, symbols, variables and literals, each a type of its own (ids.rs).
ghost use Rattle.std.specs.Prelude.{◌≡◌, ◌+◌, ◌*◌, ◌<◌};
ghost use Rattle.shinri_core.specs.Ids as Ids;

#[derive(Clone, Copy, PartialEq, Eq, Debug)]
pub struct TermId(pub u32);

#[derive(Clone, Copy, PartialEq, Eq, Debug)]
pub struct SortId(pub u32);

#[derive(Clone, Copy, PartialEq, Eq, Debug)]
pub struct SymbolId(pub u32);

#[derive(Clone, Copy, PartialEq, Eq, Debug)]
pub struct Var(pub u32);

// A variable with a sign: twice the variable's number, plus 1 if negative.
#[derive(Clone, Copy, PartialEq, Eq, Debug)]
pub struct Lit(pub u32);

impl Lit {
    pub fn new(var: Var, positive: bool) -> Lit
        requires { var.0 < 2147483648 }
        ensures { result.0 ≡ Ids.lit var.0 positive }
    {
        if positive {
            Lit(2 * var.0)
        } else {
            Lit(2 * var.0 + 1)
        }
    }

    pub fn var(self) -> Var
        ensures { result.0 ≡ Ids.var self.0 }
    {
        Var(self.0 / 2)
    }

    pub fn is_positive(self) -> bool
        ensures { result ≡ Ids.is_positive self.0 }
    {
        self.0 % 2 == 0
    }

    pub fn negate(self) -> Lit
        ensures { result.0 ≡ Ids.negate self.0 }
    {
        if self.0 % 2 == 0 {
            Lit(self.0 + 1)
        } else {
            Lit(self.0 - 1)
        }
    }
}
