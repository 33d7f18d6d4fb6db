// Ids, sorts, symbols and terms: ids.rs, sort.rs, term.rs and what is kept of context.rs, on one lent table.
#![tactic(auto)]

pub mod context;
pub mod ids;
pub mod limits;
pub mod table;
pub mod term;
