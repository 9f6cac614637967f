// How a host reads a template: what it meets item by item, and the tokens that it comes to.
#![tactic(auto)]

mod run;
pub mod token;
pub mod visit;

pub use run::plan;
pub use token::{Symbol, Token};
pub use visit::{Visit, visits};
