// Question 11's limits, and question 5's on variables (specs/Limits.antt).

// Sorts, with Bool.
pub const MAX_SORTS: usize = 64;

pub const MAX_SYMBOLS: usize = 512;

pub const MAX_TERMS: usize = 1024;

// Argument places of terms.
pub const MAX_PLACES: usize = 4096;

// Argument pairs in force.
pub const MAX_PAIRS: usize = 2048;

// Open pushes.
pub const MAX_LEVELS: usize = 64;

// Variables are numbered below it.
pub const MAX_VARS: usize = 1024;

// A limit of question 11 is met: the error of what makes a term or declares.
#[derive(Clone, Copy, PartialEq, Eq, Debug)]
pub struct NoRoom;
