use refusal::Refusal;

// The refusal that ended a run, and the place of its command's first byte.
#[derive(Clone, Copy, PartialEq, Eq, Debug)]
pub struct Stopped {
    pub place: usize,
    pub why: Refusal,
}

// The command that closes an order, with its place: it spends the ticket.
#[derive(Clone, Copy)]
pub enum Closing {
    Commit(usize),
    Discard(usize),
}
