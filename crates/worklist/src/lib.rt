// Work lists: lines that fill the holes of a template, each with its answer, and the text at the end.
#![tactic(auto)]

pub mod line;
pub mod outcome;
pub mod promise;
pub mod work;
