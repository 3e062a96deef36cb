//! Which parts hang below the versions of each part. A key has entries in the parts of its own items, and
//! from each part that it is in, in those that hang below a version which sees the key.

ghost use Rattle.std.specs.Prelude.{◌≡◌, ◌<◌, ◌≤◌, ◌+◌, List, length, slice_index, IfOk, IfSome};
ghost use Rattle.strat_split.specs.Chains.{IsLinked};
ghost use Rattle.strat_split.specs.Hanging.{carrier_of, carriers_of, first_hanging};

use crate::chains::link_place;
use crate::parts::{IN_NO_PART, Plan};
use std::alloc::Global;
use std::marker::Model;
use strat_base::{NoMemory, Version, Versions};

/// The parts that hang below the versions of each part, in chains. It is seen as the list of the carriers
/// of all parts: the carrier of a part is the part of the version that it hangs below.
///
/// A `Dealer` begins with the parts of a key's items, whose leads they are, and then asks, from each part
/// that takes something, for each part that hangs from it whether one of what the carrier takes is live
/// where it hangs: `live_in` over those items alone. No other part takes anything, and no other item, as
/// two laws say. Over all keys this looks at no more than three times the entries that are written: a part
/// is asked for with each entry of its carrier, and since the carrier is dense, at least a third of these
/// are live where the part hangs and become its own.
#[derive(Drop)]
pub struct Hanging {
    carriers: Vec<u32>,
    firsts: Vec<Option<u32>>,
    nexts: Vec<Option<u32>>,
}

impl Model for Hanging {
    ghost use Rattle.std.specs.Prelude.{ℕ, List};

    ghost Value = { List ℕ };

    ghost use Rattle.strat_split.specs.HangingFields.{carriers_kept, AreLinked};

    ghost view = { carriers_kept };

    ghost invariant = { AreLinked };
}

impl Hanging {
    /// The chains of a plan's parts. O(parts), and 20 bytes for each.
    pub fn new(alloc: Global, plan: &Plan) -> Result<Hanging, NoMemory>
        requires { length plan.now.parts ≤ 4294967295 }
        ensures ok { IfOk result (λ hanging. hanging
            ≡ carriers_of plan.now.part_of plan.now.parts) }
        ensures len { IfOk result (λ hanging. length hanging ≡ length plan.now.parts) }
    {
        let carriers = carriers(alloc, plan)?;
        let mut firsts = vec![in alloc; None; carriers.len()]?;
        let mut nexts = vec![in alloc; None; carriers.len()]?;
        link(&carriers, &mut firsts, &mut nexts);
        Ok(Hanging {
            carriers,
            firsts,
            nexts,
        })
    }

    /// The least part that hangs below a version of this part. O(1).
    pub fn first_below(&self, part: u32) -> Option<u32>
        requires { part < length self.now }
        ensures ok { result ≡ first_hanging self.now part 0 }
        ensures found { IfSome result (λ r. (r < length self.now)
            × (slice_index self.now r ≡ part)) }
    {
        self.firsts[part as usize]
    }

    /// After a part that hangs from another, the next that hangs from the same. O(1).
    pub fn next_beside(&self, q: u32) -> Option<u32>
        requires { (q < length self.now) × (slice_index self.now q < length self.now) }
        ensures ok { result ≡ first_hanging self.now (slice_index self.now q) (q + 1) }
        ensures found { IfSome result (λ r. (q < r) × (r < length self.now)
            × (slice_index self.now r ≡ slice_index self.now q)) }
    {
        self.nexts[q as usize]
    }
}

/// The carrier of each part.
fn carriers(alloc: Global, plan: &Plan) -> Result<Vec<u32>, NoMemory>
    ensures ok { IfOk result (λ list. list.items ≡ carriers_of plan.now.part_of plan.now.parts) }
{
    let mut list = Vec::new(alloc);
    for part in plan.parts.as_slice() {
        list.push(carrier(&plan.part_of, part.above))?;
    }
    Ok(list)
}

/// The part of the version that a part hangs below.
fn carrier(part_of: &Versions, above: Option<Version>) -> u32
    ensures ok { result ≡ carrier_of part_of.now above }
{
    match above {
        Some(p) => match part_of.as_slice().get(p as usize) {
            Some(label) => *label,
            None => IN_NO_PART,
        },
        None => IN_NO_PART,
    }
}

/// Links the parts from the last to the first.
fn link(carriers: &[u32], firsts: &mut [Option<u32>], nexts: &mut [Option<u32>])
    requires len { IsLinked carriers.now firsts.old nexts.old (length carriers.now) }
    requires room { length carriers.now ≤ 4294967295 }
    ensures ok { IsLinked carriers.now firsts.new nexts.new 0 }
{
    let mut q = carriers.len();
    while q > 0 {
        q -= 1;
        link_place(carriers[q], firsts, nexts, q);
    }
}
