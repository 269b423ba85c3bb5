// Words of automata that lie in lent rows.
#![tactic(auto)]

mod machine;
pub mod membership;
pub mod shortest;
pub mod splitting;
