// The layout of the cells: the field of each cell, its bytes and its values, and where a row, an event and a cell's bytes stand.
#![tactic(auto)]

mod cells;
mod field;
mod places;

pub use cells::{
    CELLS, Cells, EVENTS, PLANS, ROWS, cell_at, event_cell, event_counts, field_of, in_range,
    row_cell, width,
};
pub use field::{Field, LARGEST_TARIFF};
pub use places::{IMAGE_BYTES, place};
