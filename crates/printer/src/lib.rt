// Filling the holes of a template on a sheet, and printing the text.
#![tactic(auto)]

pub mod bind;
pub mod borrowed;
pub mod filling;
pub mod finished;
pub mod open;
mod page;
pub mod print;
pub mod promise;
pub mod row;
pub mod set_out;
pub mod sheet;
pub mod table;
