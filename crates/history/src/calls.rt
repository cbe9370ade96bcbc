use refusal::Refusal;
use runner::Stopped;
use schedule::Look;

// One call of a meter's history, with its arguments and without its ticket.
#[derive(Clone, Copy)]
pub enum Call<'a> {
    Look,
    Set(u32),
    Pass(u32),
    Get(u32),
    Open,
    Put(u32, u32),
    Check,
    Commit,
    Discard,
    Clear,
    Run(&'a [u8]),
}

// What a call answered, tickets aside. Five outcomes in one enum, and no Result: over it each would need an enum within an enum, and tell no more.
#[derive(Clone, Copy, PartialEq, Eq, Debug)]
pub enum Answer {
    Done,
    Cell(u32),
    Seen(Look),
    Refused(Refusal),
    Stopped(Stopped),
}
