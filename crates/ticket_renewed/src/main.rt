// A Put with a new ticket. With the spent one in its place the checker refuses this program: .ci/tickets tries that.
#![tactic(auto)]

use clock::CounterClock;
use engine::Engine;
use std::io;
use store::{Store, WordStore};
use summer::Europe;

fn main(rt: HostRuntime) -> io::Result<()> {
    let mut words = [0u32; 706];
    let mut meter = Engine::new(CounterClock::new(), WordStore::new(&mut words), Europe);
    if let Ok(first) = meter.open() {
        let _ = meter.discard(first);
        if let Ok(second) = meter.open() {
            let _ = meter.put(&second, 1, 1);
            let _ = meter.discard(second);
        }
    }
    rt.println("both tickets are spent")
}
