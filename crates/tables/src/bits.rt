ghost use Rattle.std.specs.Prelude.{◌≡◌, ◌<◌};
ghost use Rattle.tables.specs.Bits.{bit, bits_in};

// Whether bit n of a mask is set: it is worth 2 to the power n.
pub fn has_bit(mask: u32, n: u8) -> bool
    ensures answer { result ≡ bit mask n }
{
    n < 32 && (mask >> n) % 2 == 1
}

// How many of the bits from 1 to `last` are set; others do not count.
pub(crate) fn count_bits(mask: u32, last: u8) -> u8
    requires { last < 32 }
    ensures { result ≡ bits_in last mask }
{
    ((mask >> 1) % (1 << last)).count_ones() as u8
}
