ghost use Rattle.std.specs.Prelude.{◌≤◌, ◌+◌};

use itoa::write_digits;
use schedule::Look;
use std::io;
use std::io::Write;

// A field before a blank, which stands there already: where it begins.
#[tactic(auto, using(crate::proofs::Digits::byte))]
fn field_before(n: u8, line: &mut [u8; 64], end: usize) -> usize
    requires low { 4 ≤ end }
    requires high { end ≤ 64 }
    ensures low { end ≤ result + 4 }
    ensures high { result ≤ end }
{
    write_digits(u64::from(n), line, end - 1)
}

// The last second before the line's end.
#[tactic(auto, using(crate::proofs::Digits::word))]
fn last_before(n: u32, line: &mut [u8; 64], end: usize) -> usize
    requires low { 10 ≤ end }
    requires high { end ≤ 64 }
    ensures low { end ≤ result + 10 }
    ensures high { result ≤ end }
{
    write_digits(u64::from(n), line, end)
}

// The local time before a blank.
#[tactic(auto, using(crate::proofs::Digits::long))]
fn time_before(n: i64, line: &mut [u8; 64], end: usize) -> usize
    requires low { 22 ≤ end }
    requires high { end ≤ 64 }
    ensures { result ≤ end }
{
    let start = write_digits(n.unsigned_abs(), line, end - 1);
    if n >= 0 {
        return start;
    }
    line[start - 1] = b'-';
    start - 1
}

// The fields in sequence, blanks between, as one line that is put together from its end.
pub fn write_look<W: Write>(look: &Look, out: &mut W) -> io::Result<()> {
    let mut line = [b' '; 64];
    line[63] = b'\n';
    let at = last_before(look.last_second, &mut line, 63);
    let at = field_before(look.tariff, &mut line, at);
    let at = field_before(look.days_back, &mut line, at);
    let at = field_before(look.event, &mut line, at);
    let at = field_before(look.event_plan, &mut line, at);
    let at = field_before(look.plan, &mut line, at);
    let at = field_before(look.row, &mut line, at);
    let start = time_before(look.local_time, &mut line, at);
    out.write_all(&line[start..])
}
