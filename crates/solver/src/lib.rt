// The datatype solver (lib.rs of shinri-dt) on a lent table: what it marks and records, and the rules of a full check. What is right
// here is defined in specs/.
#![tactic(auto)]

pub mod answer;
pub mod asserting;
pub mod check;
pub mod clashes;
pub mod collapse;
pub mod constructor_clash;
pub mod disequalities;
pub mod exhaustiveness;
pub mod injectivity;
pub mod instantiation;
pub mod layout;
pub mod levels;
pub mod make;
pub mod records;
pub mod ring;
pub mod roles;
pub mod work;
