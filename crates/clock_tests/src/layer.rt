// What the contracts alone say of a clock with and without a layer: the functions below have no proof file.
ghost use Rattle.std.specs.Prelude.{◌≡◌, ◌+◌, ◌≤◌, Some};
ghost use Rattle.layers.specs.Vouching.{vouched_seconds};

use clock::{Clock, CounterClock, SettableClock};
use layers::Vouching;

// Sets a clock, lets seconds pass, and reads it.
fn reading<C: SettableClock>(c: &mut C, s: u32, n: u32) -> Option<u32>
    ensures { C.kind.first ≤ s → s ≤ C.kind.last → n ≤ C.kind.span_for s → result ≡ Some (s + n) }
{
    let _ = c.set(s);
    c.pass(n);
    c.read()
}

fn same_under_a_layer<C: SettableClock + Drop>(
    mut bare: C,
    lower: C,
    s: u32,
    n: u32,
) -> (Option<u32>, Option<u32>)
    ensures { C.kind.first ≤ s → s ≤ C.kind.last → n ≤ vouched_seconds → result.0 ≡ result.1 }
{
    let mut layered = Vouching::new(lower);
    let _ = bare.set(s);
    let _ = layered.set(s);
    bare.pass(n);
    layered.pass(n);
    (bare.read(), layered.read())
}

fn days_ahead() -> Option<u32>
    ensures { result ≡ Some 34128000 }
{
    reading(
        &mut Vouching::new(Vouching::new(CounterClock::new())),
        0,
        34_128_000,
    )
}

#[test]
fn agrees_with_the_bare_clock(rt: HostRuntime) {
    assert_eq!(rt; days_ahead(), Some(34_128_000));
    let (bare, layered) = same_under_a_layer(
        CounterClock::new(),
        CounterClock::new(),
        7,
        34_128_000,
    );
    assert_eq!(rt; bare, layered);
}
