// What Open hands out. It fits every engine. It cannot be let go, copied or made elsewhere: only Commit and Discard spend it.
pub struct Ticket {
    seal: (),
}

impl Ticket {
    pub(crate) fn new() -> Ticket {
        Ticket { seal: () }
    }

    pub(crate) fn spend(self) {
        let Ticket { seal: _ } = self;
    }
}
