// The layout of the solver's table (specs/Memory/Table.antt).
ghost use Rattle.std.specs.Prelude.{◌≡◌, ◌<◌};
ghost use Rattle.solver.specs.Memory.Kinds.{mark_word};

// The registry of variables, a table of its own, has the first words.
pub const REGISTRY_SIZE: usize = 3073;

// How many entries the records have.
pub const COUNTS: usize = 3136;

pub const RECORDS: usize = 0;

// For each term: what it was marked as, or 0.
pub const MARK: usize = 3168;

// For each block of terms: whether a constructor application may be marked in it; 0 says that none is.
pub const BLOCK: usize = 4192;

pub const BLOCKS: usize = 32;

pub const BLOCK_TERMS: usize = 32;

// The marks and the words of the blocks stand side by side, as at the front of a work table.
pub const MARKS_SIZE: usize = 1056;

// For each term: whether it was collected, stands in the lasting record, was handed out, was split on.
pub const COLLECTED: usize = 4224;

pub const LASTING: usize = 5248;

pub const EMITTED: usize = 6272;

pub const SPLIT: usize = 7296;

// The level record, the record of negative testers and that of unequal terms are one list. The key of an entry is its atom, and 1,024
// more if the tester is negative; for unequal terms the variable of their literal, and 2,048 more. For each key: whether it has an entry.
pub const RECORDED: usize = 8320;

// For each entry: its key, times 2,048, and its literal; for unequal terms, whose key tells the literal, their equation.
pub const ENTRY: usize = 11392;

// The keys from here on are those of unequal terms.
pub const UNEQUAL: usize = 2048;

// A variable has two literals.
pub const MAX_LITS: usize = 2048;

// What a mark says of its term: an application of a constructor, of a selector, of a selector with a datatype field, of a tester, of a
// function with a datatype result. The number of a kind is its word in a table.
#[derive(Clone, Copy, PartialEq, Eq)]
pub enum Kind {
    CtorApp = 1,
    SelApp = 2,
    DtSelApp = 3,
    TesterApp = 4,
    DtFunApp = 5,
}

// The word of a mark, 0 of a term that is not to be marked.
pub fn mark_word(kind: Option<Kind>) -> usize
    ensures { (result ≡ mark_word kind) × (result < 6) }
{
    match kind {
        Some(k) => k as usize,
        None => 0,
    }
}
