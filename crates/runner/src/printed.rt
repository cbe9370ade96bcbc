use crate::stopped::Stopped;
use std::fmt;

// The refusal, and the place of its command.
impl fmt::Display for Stopped {
    fn fmt<W: fmt::Write>(&self, f: &mut fmt::Formatter<W>) -> fmt::Result {
        write!(f, "{} at place {}", self.why, self.place)
    }
}
