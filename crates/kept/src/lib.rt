// A session kept open between calls, whose room for a call is lent too. What is right here is defined in specs/.
#![tactic(auto)]

pub mod kept;
