use crate::rule::Rule;

// Why a call was refused. A refused call changes nothing but what its own page says.
#[derive(Clone, Copy, PartialEq, Eq, Debug)]
pub enum Refusal {
    // a look, and the clock has no time
    NoTime,
    // the second is not one that the clock's kind accepts
    TimeNotTaken,
    // the cell is at or past the size
    NoCell,
    // more than the cell's width holds, or outside its range
    BadValue,
    // an edit is open already
    EditOpen,
    // no edit is open
    NoEdit,
    // a 65th different cell
    EditFull,
    // the tables would break a rule of the check, named with the cell
    Inconsistent { rule: Rule, cell: u32 },
    // a commit of an edit that was not checked since its last change
    NotChecked,
    // the bytes are not a work order
    BadOrder,
    // no day of the calendar, or no such date
    NoDate,
}
