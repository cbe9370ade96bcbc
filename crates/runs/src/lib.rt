// Stored runs of a program: each is a length of four bytes, high byte first, and so many bytes of input.
#![tactic(auto)]

mod stored;

pub use stored::Runs;
