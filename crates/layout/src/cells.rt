ghost use Rattle.std.specs.Prelude.{◌≡◌, ◌^◌, ◌<◌, ◌≤◌, true};
ghost use Rattle.layout.specs.Layout.{cell_at, event_cell, event_counts, field_of, in_range, Positions, row_cell, width};

use crate::field::{Field, LARGEST_TARIFF};

// The cells of a full store.
pub const CELLS: u32 = 706;

// All of them, as they are copied from a store.
pub type Cells = [u32; CELLS as usize];

// The rows, the day plans, and the events of a plan.
pub const ROWS: u8 = 32;

pub const PLANS: u8 = 16;

pub const EVENTS: u8 = 12;

// The field of a cell. Past the last cell the layout goes on with events.
#[tactic(auto, using(crate::proofs::Fields::positions), unfolding(crate::specs::Layout::field_of))]
pub fn field_of(c: u32) -> Field
    ensures answer { result ≡ field_of c }
    ensures positions { Positions }
{
    match c {
        0 => Field::Zone,
        1 => Field::Summer,
        2..=129 => match (c - 2) % 4 {
            0 => Field::Months,
            1 => Field::Weekdays,
            2 => Field::Dates,
            _ => Field::Plan,
        },
        _ => match (c - 130) % 3 {
            0 => Field::Hour,
            1 => Field::Minute,
            _ => Field::Tariff,
        },
    }
}

// The bytes of a cell.
pub fn width(c: u32) -> usize
    ensures answer { result ≡ width c }
    ensures most { result ≤ 4 }
{
    field_of(c).bytes()
}

// Whether the value is one that the cell may have: and then it fits the cell's bytes.
pub fn in_range(c: u32, v: u32) -> bool
    ensures answer { result ≡ in_range c v }
    ensures fits { result ≡ true → v < 256 ^ width c }
{
    field_of(c).allows(v)
}

// A cell of some, or 0 past the last of them.
pub fn cell_at(cells: &[u32], c: u32) -> u32
    ensures { result ≡ cell_at cells.now c }
{
    cells.get(c as usize).copied().unwrap_or(0)
}

// The first cell of a row, its months; weekdays, dates and plan follow. Rows count from 1.
pub fn row_cell(row: u8) -> u32
    ensures { result ≡ row_cell row }
{
    2 + 4 * u32::from(row.saturating_sub(1))
}

// The first cell of an event, its hour; minute and tariff follow. Plans and events count from 1.
pub fn event_cell(plan: u8, event: u8) -> u32
    ensures { result ≡ event_cell plan event }
{
    130 + 36 * u32::from(plan.saturating_sub(1)) + 3 * u32::from(event.saturating_sub(1))
}

// Whether an event counts: its hour and its minute are in range, and its tariff is 1 to the largest.
pub fn event_counts(hour: u32, minute: u32, tariff: u32) -> bool
    ensures { result ≡ event_counts hour minute tariff }
{
    (hour <= 23 && minute <= 59) && (1..=LARGEST_TARIFF).contains(&tariff)
}
