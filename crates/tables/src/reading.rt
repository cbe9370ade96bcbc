ghost use Rattle.std.specs.Prelude.{◌≡◌, ℕ, ◌<◌, ◌≤◌, map, Option};
ghost use Rattle.tables.specs.Bits.{bits_in};
ghost use Rattle.tables.specs.Cells.{cell_at, counting_event, counting_row, event_at, offset_of, InZone, plan_at, plans_at, row_at, row_of, SameCells, timetable};
ghost use Rattle.tables.specs.Filled.{things_in, timetable_in};
ghost use Rattle.tables.specs.Numbered.{numbered};

use crate::bits::count_bits;
use crate::event::Event;
use crate::list::{DayPlan, Listed, Rows};
use crate::row::Row;
use crate::tables::Tables;
use keeper::Counts;
use layout::{cell_at, event_cell, event_counts, row_cell};
use std::array;

// The things with the numbers 1 to N that are there, in ascending number.
fn numbered_in<T: Copy + Default, const N: usize, F: Fn(u8) -> Option<T>>(at: F) -> Listed<T, N>
    requires few { N < 256 }
    requires callable { F.IsAlwaysCallable at }
    ensures { (there : ℕ → Option T) → ((k : ℕ) (thing : Option T) → F.post at k thing → thing ≡ there k) → things_in result ≡ numbered there N }
{
    let mut things = Listed::new();
    // a loop, since over `filter_map(at)` the goal `push-requires` stayed open
    for number in 1..=N as u8 {
        if let Some(thing) = at(number) {
            things.push(thing);
        }
    }
    things
}

fn counting_row(number: u8, months: u32, weekdays: u32, dates: u32, plan: u32) -> Option<Row>
    ensures { result ≡ counting_row (row_of number months weekdays dates plan) }
{
    let counts = Counts {
        months: count_bits(months, 12),
        dates: count_bits(dates, 31),
        weekdays: count_bits(weekdays, 7),
    };
    let masked = counts.months > 0 && counts.weekdays > 0 && counts.dates > 0;
    if masked && plan > 0 && plan <= 16 {
        Some(Row {
            number,
            months,
            weekdays,
            dates,
            plan: plan as u8,
            counts,
        })
    } else {
        None
    }
}

// A row, where it counts.
fn row_at(cells: &[u32], number: u8) -> Option<Row>
    ensures { result ≡ row_at (cell_at cells.now) number }
{
    let first = row_cell(number);
    counting_row(
        number,
        cell_at(cells, first),
        cell_at(cells, first + 1),
        cell_at(cells, first + 2),
        cell_at(cells, first + 3),
    )
}

fn rows_in(cells: &[u32]) -> Rows
    ensures { things_in result ≡ numbered (row_at (cell_at cells.now)) 32 }
{
    numbered_in(|number| row_at(cells, number))
}

fn counting_event(number: u8, hour: u32, minute: u32, tariff: u32) -> Option<Event>
    ensures { result ≡ counting_event number hour minute tariff }
{
    if event_counts(hour, minute, tariff) {
        Some(Event {
            number,
            minute: (60 * hour + minute) as u16,
            tariff: tariff as u8,
        })
    } else {
        None
    }
}

// An event of a plan, where it counts.
fn event_at(cells: &[u32], plan: u8, number: u8) -> Option<Event>
    ensures { result ≡ event_at (cell_at cells.now) plan number }
{
    let first = event_cell(plan, number);
    counting_event(
        number,
        cell_at(cells, first),
        cell_at(cells, first + 1),
        cell_at(cells, first + 2),
    )
}

fn events_in(cells: &[u32], plan: u8) -> DayPlan
    ensures { things_in result ≡ numbered (event_at (cell_at cells.now) plan) 12 }
{
    numbered_in(|number| event_at(cells, plan, number))
}

// The counting events of a plan; plan 0 has none.
fn plan_in(cells: &[u32], plan: u8) -> DayPlan
    ensures { things_in result ≡ plan_at (cell_at cells.now) plan }
{
    if plan == 0 {
        DayPlan::new()
    } else {
        events_in(cells, plan)
    }
}

// The zone cell less 43,200, or 0 if it exceeds 86,400.
fn offset_of(zone: u32) -> i32
    ensures answer { result ≡ offset_of zone }
    ensures zone { InZone result }
{
    if zone <= 86400 {
        zone as i32 - 43200
    } else {
        0
    }
}

fn plans_in(cells: &[u32]) -> [DayPlan; 17]
    ensures { map things_in result ≡ plans_at (cell_at cells.now) }
{
    array::from_fn(|plan| plan_in(cells, plan as u8))
}

impl Tables {
    // The tables of the cells; a cell beyond the list is 0.
    #[tactic(auto, using(crate::proofs::Alike::same_cells), unfolding(crate::specs::Cells::timetable))]
    pub fn new(cells: &[u32]) -> Tables
        ensures answer { timetable_in result ≡ timetable (cell_at cells.now) }
        ensures alike { SameCells }
    {
        Tables {
            offset: offset_of(cell_at(cells, 0)),
            summer: cell_at(cells, 1) == 1,
            rows: rows_in(cells),
            plans: plans_in(cells),
        }
    }
}
