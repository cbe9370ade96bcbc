// A ticket that is spent on every way out. Without the line of the Discard the checker refuses this program: .ci/tickets tries that.
#![tactic(auto)]

use clock::CounterClock;
use engine::Engine;
use std::io;
use store::{Store, WordStore};
use summer::Europe;

fn main(rt: HostRuntime) -> io::Result<()> {
    let mut words = [0u32; 706];
    let mut meter = Engine::new(CounterClock::new(), WordStore::new(&mut words), Europe);
    if let Ok(ticket) = meter.open() {
        let _ = meter.put(&ticket, 1, 1);
        let _ = meter.discard(ticket);
    }
    rt.println("the ticket is spent")
}
