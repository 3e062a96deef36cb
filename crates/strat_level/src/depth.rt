//! Which level a promotion fills.

ghost use Rattle.std.specs.Prelude.{◌≡◌, ◌≤◌, ◌<◌, ◌^◌, length};
ghost use Rattle.std.specs.List.{sum};
ghost use Rattle.strat_level.specs.Target.{IsTarget};

/// The level that a promotion fills: the first from 1 on that has room for the leads of level 0 and
/// of the levels down to it, where level j has room for `mem * 2^j`. `leads` are those of level 0,
/// then of levels 1 to 22. O(levels), and no memory.
pub fn target(leads: &[u32], mem: u32) -> usize
    requires len { length leads.now ≡ 23 }
    requires fits { sum leads.now ≤ 2 ^ 24 }
    requires room { (4 ≤ mem) × (mem ≤ 4096) }
    ensures ok { IsTarget leads.now mem result }
    ensures fits { result ≤ 22 }
{
    let mut j = 1;
    let mut total = leads[0] + leads[1];
    let mut room = 2 * mem as u64;
    while total as u64 > room {
        j += 1;
        total += leads[j];
        room *= 2;
    }
    j
}
