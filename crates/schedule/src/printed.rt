use crate::answer::Look;
use std::fmt;

// The fields in sequence, blanks between.
impl fmt::Display for Look {
    fn fmt<W: fmt::Write>(&self, f: &mut fmt::Formatter<W>) -> fmt::Result {
        write!(
            f,
            "{} {} {} {} {} {} {} {}",
            self.local_time,
            self.row,
            self.plan,
            self.event_plan,
            self.event,
            self.days_back,
            self.tariff,
            self.last_second
        )
    }
}
