// What the programs of worked cases share: how cases are counted and told, refusals by their numbers, hosts by their
// names, and bytes as they are shown.
#![tactic(auto)]

pub mod refusal;
pub mod shown;
pub mod tally;
pub mod under;
