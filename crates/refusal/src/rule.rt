ghost use Rattle.refusal.specs.Refusals.{number_of_rule};
ghost use Rattle.std.specs.Prelude.{◌≡◌};

// The rules that committed tables keep, in the sequence of the check.
#[derive(Clone, Copy, PartialEq, Eq, Debug)]
pub enum Rule {
    // each cell is in its range
    CellInRange,
    // a row is all zero, or has three masks and a plan
    RowWhole,
    // a row's plan has a counting event
    RowServed,
    // an event that counts starts in a minute of its own
    StartAlone,
}

impl Rule {
    // The number by which a rule is known outside.
    pub fn number(self) -> u8
        ensures { result ≡ number_of_rule self }
    {
        match self {
            Rule::CellInRange => 1,
            Rule::RowWhole => 2,
            Rule::RowServed => 3,
            Rule::StartAlone => 4,
        }
    }
}
