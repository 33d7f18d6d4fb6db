// The script session: reading, the questions, the answers, the run. What is right here is defined in specs/.
#![tactic(auto)]

pub mod answer;
pub mod declaring;
pub mod kept;
pub mod levels;
pub mod line;
pub mod making;
pub mod merging;
pub mod numbers;
pub mod questions;
pub mod reader;
pub mod run;
pub mod session;
pub mod solving;
pub mod text;
