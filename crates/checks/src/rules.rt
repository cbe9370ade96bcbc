ghost use Rattle.layout.specs.Layout.{event_count, plan_count};
ghost use Rattle.std.specs.Prelude.{◌≡◌, ℕ, Bool, map, not};
ghost use Rattle.std.specs.Fn.{FnReturnsAt};
ghost use Rattle.checks.specs.Words.{numbers, first_failing, reading};
ghost use Rattle.std.specs.Option.{option_map};
ghost use Rattle.checks.specs.Rules.{Place, counts, start_of, clashes, row_whole, row_served, plan_counts, starts_twice, starts_alone, good, named, cell_places, row_places, plan_places, event_places, first_fault, FirstPlace};
ghost use Rattle.checks.specs.Rules.Place.{event_at};

use crate::fault::Fault;
use layout::{
    CELLS, Cells, EVENTS, PLANS, ROWS, cell_at, event_cell, event_counts, in_range, row_cell,
};
use refusal::Rule;

// The cells stay the one parameter `t`: a struct round them would hold nothing else, and say `self.cells` for it.
fn counts_in(t: &Cells, p: u8, e: u8) -> bool
    ensures { result ≡ counts (reading t.now) p e }
{
    let c = event_cell(p, e);
    event_counts(cell_at(t, c), cell_at(t, c + 1), cell_at(t, c + 2))
}

// The minute of the day in which an event starts, whatever its cells are.
fn start_of(t: &Cells, p: u8, e: u8) -> u64
    ensures { result ≡ start_of (reading t.now) p e }
{
    let c = event_cell(p, e);
    60 * u64::from(cell_at(t, c)) + u64::from(cell_at(t, c + 1))
}

fn plan_counts(t: &Cells, p: u8) -> bool
    ensures { result ≡ plan_counts (reading t.now) p }
{
    (1..=EVENTS).any(|e| counts_in(t, p, e))
}

fn event_clashes(t: &Cells, p: u8, e: u8, d: u8) -> bool
    ensures { result ≡ clashes (reading t.now) p e d }
{
    counts_in(t, p, d) && start_of(t, p, d) == start_of(t, p, e)
}

fn starts_twice(t: &Cells, p: u8, e: u8) -> bool
    ensures { result ≡ starts_twice (reading t.now) p e }
{
    (1..e).any(|d| event_clashes(t, p, e, d))
}

fn row_whole(t: &Cells, r: u8) -> bool
    ensures { result ≡ row_whole (reading t.now) r }
{
    let c = row_cell(r);
    let months = cell_at(t, c);
    let weekdays = cell_at(t, c + 1);
    let dates = cell_at(t, c + 2);
    let plan = cell_at(t, c + 3);
    ((months == 0 && weekdays == 0) && (dates == 0 && plan == 0))
        || ((months != 0 && weekdays != 0) && (dates != 0 && plan != 0))
}

fn row_served(t: &Cells, r: u8) -> bool
    ensures { result ≡ row_served (reading t.now) r }
{
    let plan = cell_at(t, row_cell(r) + 3);
    // past the last plan no event counts
    plan == 0 || (plan <= u32::from(PLANS) && plan_counts(t, plan as u8))
}

fn starts_alone(t: &Cells, p: u8, e: u8) -> bool
    ensures { result ≡ starts_alone (reading t.now) p e }
{
    !(counts_in(t, p, e) && starts_twice(t, p, e))
}

// By itself, since cells count from 0 and are too many for a number of a row.
fn bad_cell(t: &Cells) -> Option<Fault>
    ensures { result ≡ option_map named (first_failing (good (reading t.now)) cell_places) }
{
    let cell = (0..CELLS).find(|c| !in_range(*c, cell_at(t, *c)))?;
    Some(Fault {
        rule: Rule::CellInRange,
        cell,
    })
}

// Of the numbers from 1 to a last one, the first that fails a rule, with the cell that is named.
fn first_bad<F: Fn(&u8) -> bool, C: Fn(u8) -> u32>(
    rule: Rule,
    last: u8,
    fails: F,
    cell: C,
) -> Option<Fault>
    requires tests { F.IsAlwaysCallable fails }
    requires names { C.IsAlwaysCallable cell }
    ensures { (t : ℕ → ℕ) (at : ℕ → Place) → ((n : ℕ) (b : Bool) → FnReturnsAt F.Fn fails n b → b ≡ not (good t (at n))) → ((n c : ℕ) → C.post cell n c → record { rule = rule; cell = c } ≡ named (at n)) → result ≡ option_map named (first_failing (good t) (map at (numbers 1 last))) }
{
    let n = (1..=last).find(fails)?;
    Some(Fault {
        rule,
        cell: cell(n),
    })
}

fn bad_row(t: &Cells) -> Option<Fault>
    ensures { result ≡ option_map named (first_failing (good (reading t.now)) row_places) }
{
    // a closure, since `row_cell` of another crate gets no proof where it is passed by name
    first_bad(Rule::RowWhole, ROWS, |r| !row_whole(t, *r), |r| row_cell(r))
}

fn bad_plan(t: &Cells) -> Option<Fault>
    ensures { result ≡ option_map named (first_failing (good (reading t.now)) plan_places) }
{
    first_bad(
        Rule::RowServed,
        ROWS,
        |r| !row_served(t, *r),
        |r| row_cell(r),
    )
}

fn bad_start(t: &Cells, p: u8) -> Option<Fault>
    ensures { result ≡ option_map named (first_failing (good (reading t.now)) (map (event_at p) (numbers 1 event_count))) }
{
    first_bad(
        Rule::StartAlone,
        EVENTS,
        |e| !starts_alone(t, p, *e),
        |e| event_cell(p, e),
    )
}

fn bad_event(t: &Cells) -> Option<Fault>
    ensures { result ≡ option_map named (first_failing (good (reading t.now)) (event_places (numbers 1 plan_count))) }
{
    (1..=PLANS).find_map(|p| bad_start(t, p))
}

// The first fault of the tables, by rule and then by place, or none.
pub fn first_fault(t: &Cells) -> Option<Fault>
    ensures answer { result ≡ first_fault (reading t.now) }
    ensures first { FirstPlace (reading t.now) }
{
    bad_cell(t)
        .or_else(|| bad_row(t))
        .or_else(|| bad_plan(t))
        .or_else(|| bad_event(t))
}
