ghost use Rattle.std.specs.Prelude.{◌≡◌, ◌≤◌};

use crate::event::Event;
use crate::row::Row;
use std::alloc::AllocError;

// At most N things, in sequence.
// Not the kit's `arrayvec`, which is not `Copy`: tables are copied as they are.
#[derive(Drop)]
pub struct Listed<T, const N: usize> {
    pub(crate) places: [T; N],
    pub(crate) count: usize,
    ghost within: { count ≤ N },
}

// By hand, since no derive takes a ghost field beside a type parameter.
impl<T: Copy, const N: usize> Clone for Listed<T, N> {
    ghost is_clone = { λ list copy. copy ≡ list };

    fn clone(&self) -> Result<Listed<T, N>, AllocError> {
        Ok(*self)
    }
}

impl<T: Copy, const N: usize> Copy for Listed<T, N> {}

// The rows that count, in ascending number.
pub type Rows = Listed<Row, 32>;

// The events of a plan that count, in ascending number.
pub type DayPlan = Listed<Event, 12>;
