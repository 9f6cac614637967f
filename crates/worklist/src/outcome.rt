// What going down a work list comes to.
use fault::Fault;

// What finish said after the list, and what the print said, if there was one.
#[derive(Clone, Copy, PartialEq, Debug)]
pub struct Worked {
    pub finish: Result<usize, Fault>,
    pub print: Option<Result<usize, Fault>>,
}
