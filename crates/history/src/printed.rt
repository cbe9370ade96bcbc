use crate::calls::Answer;
use std::fmt;

// What a call answered, in words and numbers.
impl fmt::Display for Answer {
    fn fmt<W: fmt::Write>(&self, f: &mut fmt::Formatter<W>) -> fmt::Result {
        match self {
            Answer::Done => write!(f, "done"),
            Answer::Cell(value) => write!(f, "{value}"),
            Answer::Seen(look) => write!(f, "{look}"),
            Answer::Refused(why) => write!(f, "refused {why}"),
            Answer::Stopped(stopped) => write!(f, "refused {stopped}"),
        }
    }
}
