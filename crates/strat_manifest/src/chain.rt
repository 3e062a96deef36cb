//! Bytes in a chain of blocks, as they are read: each block has the number of the next, 0 after the last, and 4,092 bytes.

ghost use Rattle.std.specs.Prelude.{◌≡◌, ◌≤◌, ◌<◌, ◌+◌, ◌-◌, ◌*◌, ℕ, true, false, List, [], ◌∷◌, ◌++◌, length, Ok, Err, OnOk, IfOk, IfSome, IsErrOf};
ghost use Rattle.strat_base.specs.declared.failures.Trouble.TheVariants.{Device, Damaged};
ghost use Rattle.def_crash.specs.Faults.{HasCause, ReadsAtMost};
ghost use Rattle.def_crash.specs.Image.{Image, window};
ghost use Rattle.def_crash.specs.Moments.{Exposes, OnlyReads};
ghost use Rattle.strat_extent.specs.Blocks.{is_free};
ghost use Rattle.def_bytes.specs.Arrays.{blocks_of};
ghost use Rattle.def_bytes.specs.Chain.{chain_length};
ghost use Rattle.def_bytes.specs.Chained.{link_at, may_follow, chain_from, chained_bytes};
ghost use Rattle.strat_manifest.specs.Chains.{AreSeen, IsFollowed};

use std::alloc::Global;
use strat_base::limits::BLOCK;
use strat_base::{Extent, Extents, NoMemory, Trouble, get_u32};
use strat_disk::Disk;
use strat_extent::Space;

/// Bytes of a chain in each of its blocks.
pub(crate) const PIECE: usize = BLOCK - 4;

/// How many blocks a chain of so many bytes has. O(1).
pub(crate) fn blocks_for(bytes: usize) -> u32
    requires { bytes ≤ 4294967295 }
    ensures { result ≡ chain_length bytes }
{
    ((bytes + (PIECE - 1)) / PIECE) as u32
}

/// Room for one block, of zeros. The only error is want of memory.
pub(crate) fn block_room(alloc: Global) -> Result<Vec<u8>, NoMemory>
    ensures len { IfOk result (λ b. length b.items ≡ 4096) }
{
    let mut bytes = Vec::with_capacity(alloc, BLOCK)?;
    bytes.resize(BLOCK, 0)?;
    Ok(bytes)
}

/// A chain as far as it was followed: its blocks as a set and in their order, and the bytes that were read of it.
#[derive(Drop)]
struct Followed {
    seen: Space,
    extents: Extents,
    bytes: Vec<u8>,
}

/// An extent with the block behind it, if it ends just before this block.
fn longer(x: &Extent, block: u32) -> Option<Extent>
    requires { block < 4294967295 }
    ensures found { IfSome result (λ y. (y.start ≡ x.now.start) × (y.len ≡ x.now.len + 1)
        × (x.now.start + x.now.len ≡ block)) }
{
    if x.start as u64 + x.len as u64 == block as u64 {
        Some(Extent {
            start: x.start,
            len: x.len + 1,
        })
    } else {
        None
    }
}

/// Adds a block behind those of extents. Blocks that stand in a row are one extent. O(1) on average.
#[tactic(auto, using(crate::proofs::ChainSeenLemmas::block_pushed))]
fn push_block(extents: &mut Extents, block: u32) -> Result<(), NoMemory>
    requires { block < 4294967295 }
    ensures ok { OnOk result (blocks_of extents.new ≡ blocks_of extents.old ++ block ∷ []) }
{
    let n = extents.len();
    if n > 0 {
        if let Some(joined) = longer(extents.get(n - 1), block) {
            extents.replace_last(joined);
            return Ok(());
        }
    }
    let one = Extent {
        start: block,
        len: 1,
    };
    match extents.push(one) {
        Ok(()) => Ok(()),
        Err((failed, _)) => Err(failed),
    }
}

/// The extent of one block, as a list.
fn one_block(alloc: Global, block: u32) -> Result<Extents, NoMemory>
    ensures ok { IfOk result (λ l. l ≡ record { start = block; len = 1 } ∷ []) }
{
    let mut one = Extents::new(alloc);
    let run = Extent {
        start: block,
        len: 1,
    };
    match one.push(run) {
        Ok(()) => Ok(one),
        Err((failed, _)) => Err(failed),
    }
}

/// Marks a block and answers true where it is free, else false. O(log holes), and the shorter side of the holes moves.
fn mark_block(alloc: Global, seen: &mut Space, block: u32) -> Result<bool, NoMemory>
    ensures found { IfOk result (λ marked. marked ≡ is_free seen.old block) }
    ensures ok { IfOk result (λ marked. (blocks : List ℕ) → marked ≡ true
        → AreSeen seen.old blocks → AreSeen seen.new (blocks ++ block ∷ [])) }
{
    let one = one_block(alloc, block)?;
    seen.mark(&one)
}

/// Reads a block of a chain: one read. Answers the number of the next, and adds its other bytes to those given.
fn read_link<D: Disk>(
    disk: &mut D,
    block: u32,
    buffer: &mut [u8],
    bytes: &mut Vec<u8>,
) -> Result<u32, Trouble>
    requires fits { (block < 4294967295) × (length buffer.old ≡ 4096) }
    ensures ok { IfOk result (λ next. (f : Image) → Exposes (D.view disk.old) f
        → (next ≡ link_at f block)
        × (bytes.new.items ≡ bytes.old.items ++ window f (4096 * block + 4) 4092)) }
    ensures len { (length buffer.new ≡ 4096)
        × OnOk result (length bytes.new.items ≡ length bytes.old.items + 4092) }
    ensures damaged { (b : ℕ) → IsErrOf result (Damaged b) → ⊥ }
    ensures same { OnlyReads (D.view disk.old) (D.view disk.new) }
    ensures cause { HasCause Device (D.faults disk.old) (D.faults disk.new) result }
    ensures reads { ReadsAtMost 1 (D.reads disk.old) (D.reads disk.new) }
{
    disk.read_at(BLOCK as u64 * block as u64, buffer)?;
    bytes.extend_from_slice(&buffer[4..])?;
    Ok(get_u32(buffer, 0).unwrap())
}

impl Followed {
    /// No block yet. It takes no memory.
    fn new(alloc: Global) -> Followed
        ensures ok { (result.extents ≡ []) × (result.bytes.items ≡ []) }
        ensures kept { AreSeen result.seen [] }
    {
        Followed {
            seen: Space::new(alloc, 0),
            extents: Extents::new(alloc),
            bytes: Vec::new(alloc),
        }
    }

    /// Adds a block behind the others, where it may follow them, and answers whether it may.
    fn add(&mut self, alloc: Global, block: u32) -> Result<bool, NoMemory>
        requires kept { AreSeen self.old.seen (blocks_of self.old.extents) }
        ensures found { IfOk result (λ added. added ≡ is_free self.old.seen block) }
        ensures ok { IfOk result (λ added. added ≡ true
            → blocks_of self.new.extents ≡ blocks_of self.old.extents ++ block ∷ []) }
        ensures kept { IfOk result (λ added. added ≡ true
            → AreSeen self.new.seen (blocks_of self.new.extents)) }
        ensures same { self.new.bytes.items ≡ self.old.bytes.items }
    {
        if !mark_block(alloc, &mut self.seen, block)? {
            return Ok(false);
        }
        push_block(&mut self.extents, block)?;
        Ok(true)
    }

    /// Goes from the last block to the next, as it says.
    fn follow(&mut self, alloc: Global, block: u32, next: u32) -> Result<(), Trouble>
        requires kept { AreSeen self.old.seen (blocks_of self.old.extents) }
        ensures found { OnOk result (may_follow (blocks_of self.old.extents) next ≡ true) }
        ensures ok { OnOk result (
            blocks_of self.new.extents ≡ blocks_of self.old.extents ++ next ∷ []) }
        ensures kept { OnOk result (AreSeen self.new.seen (blocks_of self.new.extents)) }
        ensures damaged { (b : ℕ) → IsErrOf result (Damaged b) → (b ≡ block)
            × (may_follow (blocks_of self.old.extents) next ≡ false) }
        ensures cause { IsErrOf result Device → ⊥ }
        ensures same { self.new.bytes.items ≡ self.old.bytes.items }
    {
        if next == 0 {
            return Err(Trouble::Damaged { block });
        }
        if !self.add(alloc, next)? {
            return Err(Trouble::Damaged { block });
        }
        Ok(())
    }

    /// Follows so many links from the block that was added last, and answers the block that the last of them names:
    /// one read a link.
    fn follow_all<D: Disk>(
        &mut self,
        alloc: Global,
        disk: &mut D,
        first: u32,
        links: u32,
        buffer: &mut [u8],
    ) -> Result<u32, Trouble>
        requires fits { (first < 4294967295) × (length buffer.old ≡ 4096) }
        requires kept { AreSeen self.old.seen (blocks_of self.old.extents) }
        requires found { (blocks_of self.old.extents ≡ first ∷ []) × (self.old.bytes.items ≡ []) }
        ensures ok { IfOk result (λ last. (last < 4294967295)
            × IsFollowed (D.view disk.old).content first links
            (blocks_of self.new.extents) self.new.bytes.items last 0) }
        ensures damaged { (b : ℕ) → IsErrOf result (Damaged b) → (f : Image)
            → Exposes (D.view disk.old) f → chain_from f [] first links ≡ Err b }
        ensures len { length buffer.new ≡ 4096 }
        ensures same { OnlyReads (D.view disk.old) (D.view disk.new) }
        ensures cause { HasCause Device (D.faults disk.old) (D.faults disk.new) result }
        ensures reads { ReadsAtMost links (D.reads disk.old) (D.reads disk.new) }
    {
        let mut block = first;
        let mut left = links;
        while left > 0 {
            let next = read_link(disk, block, buffer, &mut self.bytes)?;
            self.follow(alloc, block, next)?;
            block = next;
            left -= 1;
        }
        Ok(block)
    }
}

/// Reads the chain of so many bytes that begins with a block: one read a block at most, and memory for what was read.
/// Answers the bytes of its blocks, of which those behind the chain's length are its fill, and its blocks in their order,
/// those that stand in a row as one extent. Device: the disk counted a fault. Damaged: the block with a wrong link.
pub(crate) fn read_chain<D: Disk>(
    alloc: Global,
    disk: &mut D,
    first: u32,
    size: u32,
) -> Result<(Vec<u8>, Extents), Trouble>
    requires fits { first < 4294967295 }
    ensures ok { IfOk result (λ r. (f : Image) → Exposes (D.view disk.old) f
        → (chain_from f [] first (chain_length size - 1) ≡ Ok (blocks_of r.1))
        × (r.0.items ≡ chained_bytes f (blocks_of r.1))) }
    ensures len { IfOk result (λ r. length r.0.items
        ≡ 4092 * (chain_length size - 1 + 1)) }
    ensures damaged { (b : ℕ) → IsErrOf result (Damaged b) → (f : Image)
        → Exposes (D.view disk.old) f → chain_from f [] first (chain_length size - 1) ≡ Err b }
    ensures same { OnlyReads (D.view disk.old) (D.view disk.new) }
    ensures cause { HasCause Device (D.faults disk.old) (D.faults disk.new) result }
    ensures reads { ReadsAtMost (chain_length size - 1 + 1)
        (D.reads disk.old) (D.reads disk.new) }
{
    let mut buffer = block_room(alloc)?;
    let mut chain = Followed::new(alloc);
    chain.add(alloc, first)?;
    let links = blocks_for(size as usize).saturating_sub(1);
    let last = chain.follow_all(alloc, disk, first, links, &mut buffer)?;
    let next = read_link(disk, last, &mut buffer, &mut chain.bytes)?;
    if next != 0 {
        return Err(Trouble::Damaged { block: last });
    }
    let Followed {
        seen: _,
        extents,
        bytes,
    } = chain;
    Ok((bytes, extents))
}
