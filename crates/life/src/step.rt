use history::Call;

// One call as a line has it, in three words. A run has the places of its first byte and past its last among the life's order bytes.
// Not a `Call` within another enum: a life of a million lines would take eight mebibytes more.
#[derive(Clone, Copy)]
pub enum Step {
    Look,
    Set(u32),
    Pass(u32),
    Get(u32),
    Open,
    Put(u32, u32),
    Check,
    Commit,
    Discard,
    Clear,
    Run(usize, usize),
}

impl Step {
    pub(crate) fn call(self, orders: &[u8]) -> Call<'_> {
        match self {
            Step::Look => Call::Look,
            Step::Set(second) => Call::Set(second),
            Step::Pass(seconds) => Call::Pass(seconds),
            Step::Get(cell) => Call::Get(cell),
            Step::Open => Call::Open,
            Step::Put(cell, value) => Call::Put(cell, value),
            Step::Check => Call::Check,
            Step::Commit => Call::Commit,
            Step::Discard => Call::Discard,
            Step::Clear => Call::Clear,
            Step::Run(from, to) => Call::Run(orders.get(from..to).unwrap_or(&[])),
        }
    }
}
