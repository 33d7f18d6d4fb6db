// The equality engine and the atom registry, each on a lent table: what is kept of eq_engine.rs, proof.rs, types.rs, undo.rs and atom.rs.
#![tactic(auto)]

pub mod atom;
pub mod eq_engine;
pub mod types;
