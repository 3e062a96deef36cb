//! Intervals of numbers that have nothing in common, kept in order of their starts.

ghost use Rattle.std.specs.Prelude.{◌≡◌, ◌<◌, ◌≤◌, ◌+◌, length, true, false, vec_len, vec_capacity};
ghost use Rattle.strat_live.specs.Tops.{AreApart, IsCovered, IsPlaceAmong, IsAmong};

/// The numbers from a start to below an end.
#[derive(Clone, Copy)]
pub(crate) struct Interval {
    pub(crate) start: u32,
    pub(crate) end: u32,
}

/// Puts an interval in its place, and answers whether it did: it does not where one of the others holds
/// its start. O(log intervals) comparisons, and a move of 8 bytes for each interval behind its place.
pub(crate) fn begins(tops: &mut Vec<Interval>, interval: Interval) -> bool
    requires room { vec_len tops.old < vec_capacity tops.old }
    ensures found { AreApart tops.old.items → result ≡ false
        → IsCovered tops.old.items interval.start }
    ensures same { result ≡ false → tops.new.items ≡ tops.old.items }
    ensures ok { AreApart tops.old.items → result ≡ true
        → IsAmong tops.old.items interval tops.new.items }
    ensures len { vec_len tops.new ≤ vec_len tops.old + 1 }
    ensures kept { vec_capacity tops.old ≤ vec_capacity tops.new }
{
    let at = place_of(tops, interval.start);
    if at > 0 && interval.start < tops[at - 1].end {
        return false;
    }
    let _ = tops.insert(at, interval);
    true
}

/// The place of the first interval that starts behind a number, or how many there are.
fn place_of(tops: &[Interval], start: u32) -> usize
    ensures len { result ≤ length tops.now }
    ensures ok { AreApart tops.now → IsPlaceAmong tops.now start result }
{
    tops.partition_point(|top| top.start <= start)
}
