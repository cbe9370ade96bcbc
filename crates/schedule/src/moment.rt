ghost use Rattle.schedule.specs.Clocks.{IsLocalDay};

// A second by the local clock: the local time, its day and its second of the day.
#[derive(Clone, Copy, Drop)]
pub struct Moment {
    pub(crate) local_time: i64,
    pub(crate) day: i32,
    pub(crate) time: u32,
    ghost near: { IsLocalDay day },
}
