ghost use Rattle.std.specs.Prelude.{◌≡◌};
ghost use Rattle.schedule.specs.EventInForce.{latest_of, started_by};

use crate::choice::best_of;
use std::cmp::Reverse;
use tables::Event;

// The later start ranks first.
fn by_start(event: &Event) -> Reverse<u16>
    ensures { result ≡ record { 0 = event.now.minute } }
{
    Reverse(event.minute)
}

// The latest of the events that have started at a second of the day; of equal times the lowest number.
pub(crate) fn latest_started(events: &[Event], second: u32) -> Option<Event>
    ensures { result ≡ latest_of (started_by second events.now) }
{
    best_of(
        events,
        |event| u32::from(event.minute) * 60 <= second,
        by_start,
    )
}

// The latest of the events.
pub(crate) fn latest(events: &[Event]) -> Option<Event>
    ensures { result ≡ latest_of events.now }
{
    best_of(events, |_| true, by_start)
}
