ghost use Rattle.std.specs.Prelude.{◌≡◌, ◌≤◌, length};
ghost use Rattle.std.specs.Int.Digits.{number_from_digits};

// The number in at most four bytes, high byte first. Byte by byte: by `copy_from_slice` into four bytes and `from_be_bytes`, an image opened in more than twice the time of plain code.
pub(crate) fn read_number(part: &[u8]) -> u32
    requires { length part.now ≤ 4 }
    ensures { result ≡ number_from_digits 256 part.now }
{
    let mut v = 0;
    for b in part {
        v = v * 256 + u32::from(*b);
    }
    v
}
