//! Classes of times, with fixed bounds.

ghost use Rattle.std.specs.Prelude.{◌≡◌, ◌<◌, ◌≤◌, ◌^◌, length, nat_le, sum};
ghost use Rattle.std.specs.List.{count_by};
ghost use Rattle.lapd_follow.specs.Classes.{begin_of, bounds, class_of, class_of_nth, end_of, middle_class, middle_within};

/// Where each class but the first begins, in microseconds.
const BOUNDS: [u64; 16] = [
    1_000,
    2_000,
    5_000,
    10_000,
    20_000,
    50_000,
    100_000,
    200_000,
    500_000,
    1_000_000,
    2_000_000,
    5_000_000,
    10_000_000,
    20_000_000,
    50_000_000,
    100_000_000,
];

/// How many classes there are.
pub(crate) const CLASSES: usize = 17;

/// Two times between which the middle one of some times lies, in microseconds.
#[derive(Clone, Copy, Debug, PartialEq, Eq)]
pub struct Middle {
    /// The least it can be.
    pub from: u64,
    /// The greatest it can be.
    pub to: u64,
}

/// The class of a time.
#[tactic(auto, unfolding(crate::specs::Classes::bounds, crate::specs::Classes::class_of))]
pub(crate) fn class_of(time: u64) -> usize
    ensures exact { result ≡ class_of time }
    ensures bound { result < 17 }
{
    reached(time, &BOUNDS)
}

/// How many of these bounds are not above a time.
fn reached(time: u64, bounds: &[u64]) -> usize
    ensures exact { result ≡ count_by (λ bound. nat_le bound time) bounds.now }
    ensures bound { result ≤ length bounds.now }
{
    let mut class: usize = 0;
    for bound in bounds {
        class += usize::from(*bound <= time);
    }
    class
}

/// The end of a class.
#[tactic(auto, unfolding(crate::specs::Classes::bounds, crate::specs::Classes::end_of))]
fn end_of(class: usize) -> u64
    ensures { result ≡ end_of class }
{
    BOUNDS.get(class).copied().unwrap_or(u64::MAX)
}

/// The beginning of a class.
#[tactic(auto, unfolding(crate::specs::Classes::begin_of))]
fn begin_of(class: usize) -> u64
    ensures { result ≡ begin_of class }
{
    if class == 0 { 0 } else { end_of(class - 1) }
}

/// The sum of the counts.
fn sum_of_counts(counts: &[u64; CLASSES]) -> u128
    ensures exact { result ≡ sum counts.now }
    ensures bound { result < 2 ^ 69 }
{
    let mut all: u128 = 0;
    for count in counts {
        all += u128::from(*count);
    }
    all
}

/// The class of the n-th of the times, counted from 1 and from the least.
fn class_of_nth(nth: u128, counts: &[u64]) -> usize
    ensures { result ≡ class_of_nth nth counts.now }
{
    let mut left = nth;
    let mut class: usize = 0;
    for count in counts {
        let count = u128::from(*count);
        if left <= count {
            return class;
        }
        left -= count;
        class += 1;
    }
    class
}

/// The class of the middle one of the times.
#[tactic(auto, unfolding(crate::specs::Classes::middle_class))]
pub(crate) fn middle_class(counts: &[u64; CLASSES]) -> usize
    ensures { result ≡ middle_class counts.now }
{
    class_of_nth((sum_of_counts(counts) + 1) / 2, counts)
}

/// The bounds of the class of the middle one, but no further than the least and the greatest time.
pub(crate) fn middle_within(
    class: usize,
    least: Option<u64>,
    greatest: Option<u64>,
) -> Option<Middle>
    ensures { result ≡ middle_within class least greatest }
{
    match (least, greatest) {
        (Some(least), Some(greatest)) => Some(Middle {
            from: least.max(begin_of(class)),
            to: greatest.min(end_of(class)),
        }),
        _ => None,
    }
}
