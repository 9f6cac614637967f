// What a token holds: a byte, or the mark of a hole by its number.
#[derive(Clone, Copy, PartialEq, Debug)]
pub enum Symbol {
    Byte(u8),
    Mark(usize),
}

// A token of the plan: its kind and what it holds.
#[derive(Drop, PartialEq, Debug)]
pub struct Token {
    pub kind: u8,
    pub value: Vec<Symbol>,
}
