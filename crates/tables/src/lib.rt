// The tables that looks go by: zone, summer time, the rows and the events that count, made once from the cells.
#![tactic(auto)]

mod bits;
mod event;
mod filled;
mod holding;
mod list;
mod reading;
mod row;
mod tables;

pub use bits::has_bit;
pub use event::{Event, Tariff};
pub use list::{DayPlan, Rows};
pub use row::Row;
pub use tables::Tables;
