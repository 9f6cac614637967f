use fault::Fault;

// What merging one record answers: the place after the record in the input, and the length of the text in the output.
#[derive(Clone, Copy, PartialEq, Debug)]
pub struct Merged {
    pub next: usize,
    pub len: usize,
}

// What merging several records answers: how many were merged, the place after the last of them, the length of their texts, and the
// refusal that stopped it, if one did. That is no `Result`, since what was merged before a refusal stands.
#[derive(Clone, Copy, PartialEq, Debug)]
pub struct Merges {
    pub count: usize,
    pub next: usize,
    pub len: usize,
    pub refusal: Option<Fault>,
}
