// Why a call refuses. Every refusal of every crate is a case of one enum, `Fault`.
#![tactic(auto)]

mod display;
pub mod failure;
pub mod fault;
pub mod flaw;

pub use failure::Failure;
pub use fault::Fault;
pub use flaw::Flaw;
