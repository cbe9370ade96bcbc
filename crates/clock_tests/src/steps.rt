use clock::{Clock, SettableClock};
use refusal::Refusal;

// What a clock shows once n seconds have passed.
pub fn after<C: Clock>(c: &mut C, n: u32) -> Option<u32> {
    c.pass(n);
    c.read()
}

// What a clock shows n seconds after it is set.
pub fn set_after<C: SettableClock>(c: &mut C, s: u32, n: u32) -> Result<Option<u32>, Refusal> {
    c.set(s)?;
    Ok(after(c, n))
}
