ghost use Rattle.std.specs.Prelude.{◌≡◌, ℕ, List, ◌++◌, nat_lt};
ghost use Rattle.keeper.specs.Best.{first_best};
ghost use Rattle.schedule.specs.Candidates.{ahead, candidates, LastFrom};
ghost use Rattle.tables.specs.Numbered.{alone};
ghost use Rattle.schedule.specs.Soonest.{SoonestOf};

use keeper::Keeper;
use tables::Event;

// Offers a second, where there is one, by itself as its rank and its place.
fn offer_second(soonest: &mut Keeper<u32, u32>, second: Option<u32>)
    ensures { (xs : List ℕ) → SoonestOf xs soonest.old.best → SoonestOf (xs ++ alone second) soonest.new.best }
{
    if let Some(second) = second {
        soonest.offer(second, second);
    }
}

// The start of an event, where it comes later in the day and is not past the last second.
fn start_after(t: u32, time: u32, event: Event) -> Option<u32>
    ensures { alone result ≡ ahead t time event }
{
    let start = u32::from(event.minute) * 60;
    if time < start {
        t.checked_add(start - time)
    } else {
        None
    }
}

// The soonest of midnight, the starts that come later in the day and the rule's next change.
fn next_boundary(t: u32, time: u32, events: &[Event], change: Option<u32>) -> Option<u32>
    ensures { result ≡ first_best (λ x y. nat_lt x y) (candidates t time events.now change) }
{
    let mut soonest = Keeper::new();
    offer_second(&mut soonest, t.checked_add(86400u32.saturating_sub(time)));
    for &event in events {
        offer_second(&mut soonest, start_after(t, time, event));
    }
    offer_second(&mut soonest, change);
    soonest.best_place()
}

// The last second of the look at t: the one before the next boundary, or the last of all.
#[tactic(auto, using(crate::proofs::Nearest::last_by))]
pub(crate) fn last_second(t: u32, time: u32, events: &[Event], change: Option<u32>) -> u32
    ensures { LastFrom t time events.now change result }
{
    next_boundary(t, time, events, change).map_or(u32::MAX, |second| second.saturating_sub(1))
}
