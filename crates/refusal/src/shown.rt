ghost use Rattle.refusal.specs.Refusals.{number_of, words_of};
ghost use Rattle.std.specs.Prelude.{◌≡◌};

use crate::refusal::Refusal;
use std::fmt;

impl Refusal {
    // The number by which a refusal is known outside.
    pub fn number(&self) -> u8
        ensures { result ≡ number_of self.now }
    {
        match self {
            Refusal::NoTime => 1,
            Refusal::TimeNotTaken => 2,
            Refusal::NoCell => 3,
            Refusal::BadValue => 4,
            Refusal::EditOpen => 5,
            Refusal::NoEdit => 6,
            Refusal::EditFull => 7,
            Refusal::Inconsistent { .. } => 8,
            Refusal::NotChecked => 9,
            Refusal::BadOrder => 10,
            Refusal::NoDate => 11,
        }
    }

    // The refusal in words.
    pub fn words(&self) -> &'static str
        ensures { result.now ≡ words_of self.now }
    {
        match self {
            Refusal::NoTime => "no time",
            Refusal::TimeNotTaken => "time not taken",
            Refusal::NoCell => "no cell",
            Refusal::BadValue => "bad value",
            Refusal::EditOpen => "edit open",
            Refusal::NoEdit => "no edit",
            Refusal::EditFull => "edit full",
            Refusal::Inconsistent { .. } => "inconsistent",
            Refusal::NotChecked => "not checked",
            Refusal::BadOrder => "bad order",
            Refusal::NoDate => "no date",
        }
    }
}

impl fmt::Display for Refusal {
    fn fmt<W: fmt::Write>(&self, f: &mut fmt::Formatter<W>) -> fmt::Result {
        write!(f, "{} {}", self.number(), self.words())?;
        if let Refusal::Inconsistent { rule, cell } = self {
            write!(f, " (rule {}, cell {cell})", rule.number())?;
        }
        Ok(())
    }
}
