ghost use Rattle.std.specs.Prelude.{◌≡◌, ℕ, ℤ, ◌<◌, ◌≤◌, pos, ◌+ℤ◌, ◌≤ℤ◌};
ghost use Rattle.keeper.specs.Least.{changes, least_later};
ghost use Rattle.summer.specs.Zone.{InZone, zone};
ghost use Rattle.summer.specs.Years.{Ascending, Current, summer_at};

// A law that gives each year a first and a last moment of summer, in seconds of its own time.
pub trait Yearly {
    ghost from: { ℕ → ℕ };

    ghost until: { ℕ → ℕ };

    // A second at an offset by that time, which is a zone ahead.
    ghost moment: { ℤ → ℕ → ℤ };

    fn zone(offset: i32) -> i64
        ensures ahead { (s : ℕ) → moment offset s ≡ pos s +ℤ result }
        ensures near { InZone result };

    // Year 0 is 1970.
    fn first(year: u32) -> i64
        requires { year < 136 }
        ensures { result ≡ pos (from year) };

    fn last(year: u32) -> i64
        requires { year < 136 }
        ensures { result ≡ pos (until year) };

    ghost ascending: { Ascending from until };
}

// The first year whose summer has not ended, by halves: the ends are worked out year by year, so there is no slice for `partition_point`.
fn year_of<L: Yearly>(t: i64) -> u32
    requires { t ≤ℤ pos 4295010495 }
    ensures { Current L.Yearly.until t result }
{
    let mut low = 0;
    let mut high = 136;
    while low < high {
        let mid = (low + high) / 2;
        if L::last(mid) <= t {
            low = mid + 1;
        } else {
            high = mid;
        }
    }
    low
}

fn summer_at<L: Yearly>(t: i64) -> bool
    requires { t ≤ℤ pos 4295010495 }
    ensures { result ≡ summer_at L.Yearly.from L.Yearly.until t }
{
    let y = year_of::<L>(t);
    y < 136 && L::first(y) <= t
}

// The second whose time at an offset is t.
fn second_of(t: i64, offset: i64) -> u32
    requires from { offset ≤ℤ t }
    requires to { t ≤ℤ (pos 4294967295 +ℤ offset) }
    ensures { pos result +ℤ offset ≡ t }
{
    (t - offset) as u32
}

pub(crate) fn next_end<L: Yearly>(offset: i64, second: u32) -> Option<u32>
    requires { InZone offset }
    ensures { result ≡ least_later (changes (λ s. summer_at L.Yearly.from L.Yearly.until (pos s +ℤ offset))) second 4294967295 }
{
    let t = i64::from(second) + offset;
    let y = year_of::<L>(t);
    if y == 136 {
        return None;
    }
    let first = L::first(y);
    if t < first {
        return Some(second_of(first, offset));
    }
    Some(second_of(L::last(y), offset))
}

// Whether it is summer by the law at an offset and a second.
pub(crate) fn in_force<L: Yearly>(offset: i32, second: u32) -> bool
    ensures { result ≡ summer_at L.Yearly.from L.Yearly.until (L.Yearly.moment offset second) }
{
    summer_at::<L>(i64::from(second) + L::zone(offset))
}

// The next second at which that changes.
pub(crate) fn next_change<L: Yearly>(offset: i32, second: u32) -> Option<u32>
    ensures { result ≡ least_later (changes (λ s. summer_at L.Yearly.from L.Yearly.until (L.Yearly.moment offset s))) second 4294967295 }
{
    next_end::<L>(L::zone(offset), second)
}

// An offset beyond twelve hours counts as 0.
pub(crate) fn zone_of(offset: i32) -> i64
    ensures value { result ≡ zone offset }
    ensures near { InZone result }
{
    if offset < -43200 || offset > 43200 {
        0
    } else {
        i64::from(offset)
    }
}
