ghost use Rattle.std.specs.Prelude.{◌≡◌, ◌^◌, ◌<◌, ◌≤◌, true};
ghost use Rattle.layout.specs.Layout.{allows, MaskRanges, width_of};

use crate::cells::PLANS;

// The largest tariff.
pub const LARGEST_TARIFF: u32 = 255;

// What a cell is for.
#[derive(Clone, Copy)]
pub enum Field {
    // zone seconds plus 43,200
    Zone,
    // summer time, off or on
    Summer,
    // the three masks and the plan of a row
    Months,
    Weekdays,
    Dates,
    Plan,
    // the start and the tariff of an event
    Hour,
    Minute,
    Tariff,
}

impl Field {
    // Whether the value is one that the field may have: and then it fits the field's bytes.
    #[tactic(auto, using(crate::proofs::Fields::field_fits, crate::proofs::Masks::mask_ranges))]
    pub fn allows(self, v: u32) -> bool
        ensures answer { result ≡ allows self v }
        ensures fits { result ≡ true → v < 256 ^ width_of self }
        ensures masks { MaskRanges v }
    {
        match self {
            Field::Zone => v <= 86400,
            Field::Summer => v <= 1,
            Field::Months => v & 8190 == v,
            Field::Weekdays => v & 254 == v,
            Field::Dates => v & 4294967294 == v,
            Field::Plan => v <= u32::from(PLANS),
            Field::Hour => v <= 23,
            Field::Minute => v <= 59,
            Field::Tariff => v <= LARGEST_TARIFF,
        }
    }

    // The bytes of the field.
    pub fn bytes(self) -> usize
        ensures answer { result ≡ width_of self }
        ensures most { result ≤ 4 }
    {
        match self {
            Field::Zone => 4,
            Field::Months => 2,
            Field::Dates => 4,
            _ => 1,
        }
    }
}
