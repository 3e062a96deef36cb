//! Recovering a store over levels: what its manifest and its journal say is taken into memory.

ghost use Rattle.std.specs.Prelude.{◌≡◌, ◌≢◌, ◌≤◌, ◌<◌, ◌+◌, ◌-◌, ◌*◌, ℕ, [], length, map, fold, replicate, Ok, Err, Some, None, IfOk, IfErr, OnOk, IsErrOf, IsTrue, false, ◌↔◌, is_some};
ghost use Rattle.std.specs.List.{list_all};
ghost use Rattle.strat_array.specs.Kept.{Blocks};
ghost use Rattle.strat_base.specs.Change.{is_lawful};
ghost use Rattle.strat_base.specs.declared.failures.Trouble.TheVariants.{Damaged, Device};
ghost use Rattle.def_crash.specs.Faults.{CountsFaults, HasCause, ReadsAtMost};
ghost use Rattle.def_crash.specs.Image.{Image};
ghost use Rattle.def_crash.specs.Moments.{Exposes, Images, Since, Passes, TearsOnly, KeepsImages, IsDurable, OnlyReads};
ghost use Rattle.strat_cursor.specs.Held.{no_cursors};
ghost use Rattle.def_bytes.specs.Chain.{chain_length};
ghost use Rattle.def_bytes.specs.Chained.{manifest_at};
ghost use Rattle.def_bytes.specs.Layout.{region_blocks, region_at, other_region, open_flag};
ghost use Rattle.def_bytes.specs.Manifest.{Manifest};
ghost use Rattle.def_bytes.specs.SuperBlock.{IsLawful, Super, newest_in};
ghost use Rattle.strat_model.specs.Table.{Table};
ghost use Rattle.strat_gate.specs.SuperView.{super_of};
ghost use Rattle.strat_journal.specs.Log.{IsStale};
ghost use Rattle.strat_journal.specs.Records.{logged_of};
ghost use Rattle.def_recovery.specs.Opened.{parents_in};
ghost use Rattle.def_recovery.specs.Opening.{accepted_in, recover_manifest, recover_journal, recover_head, recover};
ghost use Rattle.def_publish.specs.Contents.{Contents};
ghost use Rattle.def_publish.specs.Several.{EachShows, ShowsOneOf};
ghost use Rattle.def_publish.specs.Standing.{ReadsAs, ShowsTable, ContentsStand};
ghost use Rattle.def_state.specs.Sound.{are_accepted, journal_max};
ghost use Rattle.strat_open.specs.Following.{IsOpenedAs, IsUnchanged, LeavesOpening};
ghost use Rattle.strat_memory.specs.Filters.{no_filters};
ghost use Rattle.strat_memory.specs.Held.{IsConsistent, IsLogBehind};
ghost use Rattle.strat_memory.specs.Memory.{refusal_of_change, memory_after, HasRoomFor, IsMemoryOf, sealed_off};
ghost use Rattle.strat_memory.specs.Admitting.{chained_of, IsAdmitted};
ghost use Rattle.strat_memory.specs.RecoveredFields.{held_of, empty_cache};
ghost use Rattle.strat_open.specs.Recovering.{IsRecoveredFrom, ReadsAsSound};
ghost use Rattle.strat_open.specs.declared.attach_fault.AttachFault.TheVariants as fault;

use crate::attach_fault::AttachFault;
use std::alloc::Global;
use strat_base::{Failed, NoMemory, Trouble};
use strat_disk::Disk;
use strat_gate::{SuperBlock, newest};
use strat_journal::{Journal, Logged, close_region};
use strat_memory::admitting::{Published, admit};
use strat_memory::filters::Filters;
use strat_memory::memory::Memory;
use strat_memory::open_store::OpenStore;

/// Syncs, so that what is read from now on is what a crash leaves.
pub(crate) fn sync_first<D: Disk>(disk: &mut D) -> Result<(), Failed>
    ensures ok { OnOk result (IsDurable (D.view disk.new)) }
    ensures same { (D.view disk.new).content ≡ (D.view disk.old).content }
    ensures images { KeepsImages (D.view disk.old) (D.view disk.new) }
    ensures time { Passes (D.view disk.old) (D.view disk.new) }
    ensures cause { CountsFaults (D.faults disk.old) (D.faults disk.new) result }
    ensures reads { D.reads disk.new ≡ D.reads disk.old }
{
    disk.sync()?;
    Ok(())
}

/// What the last checkpoint left, from the blocks that a superblock leads to: one read a block. Damaged: the block
/// of its chain with a wrong link, or the first where no manifest of such a store stands.
fn read_published<D: Disk>(
    alloc: Global,
    disk: &mut D,
    sb: &SuperBlock,
) -> Result<Published, Trouble>
    requires fits { IsLawful (super_of sb.now) }
    ensures found { IfOk result (λ p. (f : Image) → Exposes (D.view disk.old) f
        → manifest_at sb.now.format f sb.now.manifest sb.now.length ≡ Ok (chained_of p)) }
    ensures kept { IfOk result (λ p. IsAdmitted (super_of sb.now) p) }
    ensures damaged { (block : ℕ) → IsErrOf result (Damaged block) → (f : Image)
        → Exposes (D.view disk.old) f → recover_manifest f (super_of sb.now) ≡ Err block }
    ensures same { OnlyReads (D.view disk.old) (D.view disk.new) }
    ensures cause { HasCause Device (D.faults disk.old) (D.faults disk.new) result }
    ensures reads { ReadsAtMost (chain_length sb.now.length - 1 + 1)
        (D.reads disk.old) (D.reads disk.new) }
{
    let (manifest, chain) = strat_manifest::read(alloc, disk, sb.manifest, sb.length, sb.format)?;
    match admit(alloc, sb, manifest, chain)? {
        Some(published) => Ok(published),
        None => Err(Trouble::Damaged { block: sb.manifest }),
    }
}

/// What a store has in memory of its versions, their marks and level 0 before any change of its journal. O(versions log
/// versions_max), and all the memory that changes take until the journal is full. The only error is want of memory.
fn load_memory(alloc: Global, sb: &SuperBlock, published: &Published) -> Result<Memory, NoMemory>
    requires fits { IsLawful (super_of sb.now) }
    requires kept { IsAdmitted (super_of sb.now) published.now }
    ensures ok { IfOk result (λ m. IsMemoryOf (record {
      sb = super_of sb.now;
      manifest = (chained_of published.now).manifest;
      journal = [];
    }) m) }
    ensures cursors { IfOk result (λ m. m.cursors ≡ no_cursors) }
{
    let mut memory = Memory::new(alloc, sb.mem, sb.changes_max, sb.versions_max)?;
    memory.load(
        published.manifest.parents.as_slice(),
        published.manifest.marks.as_slice(),
        published.manifest.updates,
        published.manifest.changes,
    );
    Ok(memory)
}

/// Carries out the change of a record, or names its block where it is refused. It takes no memory.
fn redo(memory: &mut Memory, logged: &Logged) -> Result<(), Trouble>
    requires room { HasRoomFor memory.old logged.now.change }
    ensures ok { OnOk result ((refusal_of_change memory.old logged.now.change ≡ None)
        × (memory.new ≡ memory_after memory.old logged.now.change)) }
    ensures fits { OnOk result (IsTrue (is_lawful logged.now.change)) }
    ensures err { IfErr result (λ e. (e ≡ Damaged logged.now.block)
        × IsTrue (is_some (refusal_of_change memory.old logged.now.change))) }
{
    let change = logged.change.as_change();
    if memory.refusal(&change).is_some() {
        return Err(Trouble::Damaged {
            block: logged.block,
        });
    }
    memory.take(&change);
    Ok(())
}

/// Carries out the changes of a journal, each of which has to be accepted in its turn; `Damaged` names the block of the
/// first that is not. One insertion a change, and no memory.
fn replay(memory: &mut Memory, logged: &[Logged]) -> Result<(), Trouble>
    requires room { length logged.now ≤ memory.old.spare }
    ensures found { OnOk result (accepted_in memory.old.changes_max memory.old.versions_max
        memory.old.parents memory.old.marks memory.old.changes (map logged_of logged.now)
        ≡ Ok (map (λ l. l.change) logged.now)) }
    ensures ok { OnOk result
        (memory.new ≡ fold memory_after memory.old (map (λ l. l.change) logged.now)) }
    ensures fits { OnOk result (IsTrue (list_all is_lawful (map (λ l. l.change) logged.now))) }
    ensures damaged { IfErr result (λ e. (b : ℕ) × (e ≡ Damaged b)
        × (accepted_in memory.old.changes_max memory.old.versions_max
        memory.old.parents memory.old.marks memory.old.changes (map logged_of logged.now)
        ≡ Err b)) }
{
    for record in logged {
        redo(memory, record)?;
    }
    Ok(())
}

/// Seals level 0, and puts a new one with room for `mem` updates in its place. The only error is want of memory.
fn seal_full(alloc: Global, memory: &mut Memory, mem: u32) -> Result<(), NoMemory>
    requires fits { (4 ≤ mem) × (mem ≤ 4096) }
    requires none { memory.old.sealed ≡ None }
    ensures ok { OnOk result (memory.new ≡ sealed_off mem memory.old) }
{
    let marks = memory.marks(alloc)?;
    memory.prepare(alloc, mem)?;
    memory.seal(marks);
    Ok(())
}

/// Carries out the changes of a journal that goes on behind a full region of `mem`, each of which has to be accepted in its
/// turn; `Damaged` names the block of the first that is not. Level 0 is sealed once it has those of the full region, and
/// the others go into a new one, which is all the memory that it takes. One insertion a change.
fn replay_both(
    alloc: Global,
    memory: &mut Memory,
    mem: u32,
    logged: &[Logged],
) -> Result<(), Trouble>
    requires fits { (4 ≤ mem) × (mem ≤ 4096) }
    requires none { memory.old.sealed ≡ None }
    requires room { (mem ≤ memory.old.spare) × (mem < length logged.now)
        × (length logged.now ≤ journal_max mem) }
    ensures found { OnOk result (accepted_in memory.old.changes_max memory.old.versions_max
        memory.old.parents memory.old.marks memory.old.changes (map logged_of logged.now)
        ≡ Ok (map (λ l. l.change) logged.now)) }
    ensures ok { OnOk result ((sb : Super) (manifest : Manifest) → sb.mem ≡ mem
        → IsMemoryOf (record { sb = sb; manifest = manifest; journal = [] }) memory.old
        → IsMemoryOf (record {
          sb = sb;
          manifest = manifest;
          journal = map (λ l. l.change) logged.now;
        }) memory.new) }
    ensures cursors { OnOk result (memory.new.cursors ≡ memory.old.cursors) }
    ensures fits { OnOk result (IsTrue (list_all is_lawful (map (λ l. l.change) logged.now))) }
    ensures damaged { (block : ℕ) → IsErrOf result (Damaged block)
        → accepted_in memory.old.changes_max memory.old.versions_max
        memory.old.parents memory.old.marks memory.old.changes (map logged_of logged.now)
        ≡ Err block }
    ensures err { IsErrOf result Device → ⊥ }
{
    replay(memory, &logged[..mem as usize])?;
    seal_full(alloc, memory, mem)?;
    replay(memory, &logged[mem as usize..])?;
    Ok(())
}

/// What a store has in memory of its versions and of level 0, with the changes of its journal carried out. `Damaged`
/// names the block of the first that is refused. Where the journal goes on behind a full region, level 0 is sealed in
/// between. One insertion a change, and all the memory that changes take until the journal is full.
fn recover_memory(
    alloc: Global,
    sb: &SuperBlock,
    published: &Published,
    logged: &[Logged],
) -> Result<Memory, Trouble>
    requires fits { IsLawful (super_of sb.now) }
    requires kept { IsAdmitted (super_of sb.now) published.now }
    requires room { length logged.now ≤ journal_max sb.now.mem }
    ensures found { OnOk result (accepted_in sb.now.changes_max sb.now.versions_max
        (parents_in (chained_of published.now).manifest) (chained_of published.now).manifest.marks
        published.now.manifest.changes
        (map logged_of logged.now) ≡ Ok (map (λ l. l.change) logged.now)) }
    ensures ok { IfOk result (λ m. IsMemoryOf (record {
      sb = super_of sb.now;
      manifest = (chained_of published.now).manifest;
      journal = map (λ l. l.change) logged.now;
    }) m) }
    ensures cursors { IfOk result (λ m. m.cursors ≡ no_cursors) }
    ensures fits { OnOk result (IsTrue (list_all is_lawful (map (λ l. l.change) logged.now))) }
    ensures damaged { (block : ℕ) → IsErrOf result (Damaged block)
        → accepted_in sb.now.changes_max sb.now.versions_max
        (parents_in (chained_of published.now).manifest) (chained_of published.now).manifest.marks
        published.now.manifest.changes
        (map logged_of logged.now) ≡ Err block }
    ensures err { IsErrOf result Device → ⊥ }
{
    let mut memory = load_memory(alloc, sb, published)?;
    if logged.len() > sb.mem as usize {
        replay_both(alloc, &mut memory, sb.mem, logged)?;
        return Ok(memory);
    }
    replay(&mut memory, logged)?;
    Ok(memory)
}

/// The journal of a superblock, behind what the last checkpoint left, and memory with its changes carried out. It
/// reads each block of the active region at most once, none after its first closed gate, and one of the other region,
/// or, if the active one is full, that one in the same way.
/// Damaged: the block of a record that is no change, or of a change that is refused, or the other region's first where
/// both regions hold too many. A journal that goes on in the other region takes the memory of a second level 0.
fn read_journal<D: Disk>(
    alloc: Global,
    disk: &mut D,
    sb: &SuperBlock,
    published: &Published,
) -> Result<(Journal, Memory), Trouble>
    requires fits { IsLawful (super_of sb.now) }
    requires kept { IsAdmitted (super_of sb.now) published.now }
    ensures found { IfOk result (λ r. (f : Image) → Exposes (D.view disk.old) f
        → (recover_journal f (super_of sb.now) (chained_of published.now).manifest ≡ Ok r.0.list)
        × (IsTrue r.0.stale ↔ IsStale f sb.now.mem sb.now.region (length r.0.list))) }
    ensures kept { IfOk result (λ r. IsLogBehind (super_of sb.now) r.0) }
    ensures fits { IfOk result (λ r. IsTrue (are_accepted sb.now.changes_max sb.now.versions_max
        (parents_in (chained_of published.now).manifest) (chained_of published.now).manifest.marks
        published.now.manifest.changes r.0.list)) }
    ensures ok { IfOk result (λ r. IsMemoryOf (record {
      sb = super_of sb.now;
      manifest = (chained_of published.now).manifest;
      journal = r.0.list;
    }) r.1) }
    ensures cursors { IfOk result (λ r. r.1.cursors ≡ no_cursors) }
    ensures damaged { (block : ℕ) → IsErrOf result (Damaged block) → (f : Image)
        → Exposes (D.view disk.old) f
        → recover_journal f (super_of sb.now) (chained_of published.now).manifest ≡ Err block }
    ensures same { OnlyReads (D.view disk.old) (D.view disk.new) }
    ensures cause { HasCause Device (D.faults disk.old) (D.faults disk.new) result }
    ensures reads { ReadsAtMost (2 * region_blocks sb.now.mem) (D.reads disk.old) (D.reads disk.new)
        × IfOk result (λ r. length r.0.list < sb.now.mem
        → ReadsAtMost (region_blocks sb.now.mem + 1) (D.reads disk.old) (D.reads disk.new)) }
{
    let (journal, logged) = Journal::read(alloc, disk, sb)?;
    let memory = recover_memory(alloc, sb, published, &logged)?;
    Ok((journal, memory))
}

/// The store behind a superblock in a slot: each block of its manifest's chain and those of the journal are read, each
/// once.
fn recover_at<D: Disk>(
    alloc: Global,
    disk: &mut D,
    slot: u8,
    sb: SuperBlock,
) -> Result<OpenStore, Trouble>
    requires fits { (slot ≤ 1) × IsLawful (super_of sb) }
    ensures found { IfOk result (λ r. (f : Image) → Exposes (D.view disk.old) f
        → newest_in f ≡ Ok (Some (slot, super_of sb)) → IsRecoveredFrom f r) }
    ensures kept { IfOk result (λ r. (cached : Blocks) → IsConsistent (held_of r cached)) }
    ensures ok { IfOk result (λ r. (r.sb ≡ sb) × (r.promoting ≡ None)) }
    ensures cursors { IfOk result (λ r. r.memory.cursors ≡ no_cursors) }
    ensures filters { IfOk result (λ r. r.filters ≡ replicate 22 no_filters) }
    ensures damaged { (block : ℕ) → IsErrOf result (Damaged block) → (f : Image)
        → Exposes (D.view disk.old) f → recover_head f (super_of sb) ≡ Err block }
    ensures same { OnlyReads (D.view disk.old) (D.view disk.new) }
    ensures cause { HasCause Device (D.faults disk.old) (D.faults disk.new) result }
    ensures reads { ReadsAtMost (chain_length sb.length - 1 + 1 + 2 * region_blocks sb.mem)
        (D.reads disk.old) (D.reads disk.new)
        × IfOk result (λ r. length r.journal.list < sb.mem
        → ReadsAtMost (chain_length sb.length - 1 + 1 + region_blocks sb.mem + 1)
        (D.reads disk.old) (D.reads disk.new)) }
{
    let published = read_published(alloc, disk, &sb)?;
    let (journal, memory) = read_journal(alloc, disk, &sb, &published)?;
    Ok(OpenStore {
        slot,
        sb,
        published,
        journal,
        memory,
        filters: Filters::new(alloc),
        promoting: None,
    })
}

/// The store on a disk, with all the memory that its changes take until the journal is full, and that of a second level 0
/// where the journal goes on in the other region. It writes nothing. It reads the two superblock slots and what
/// `recover_at` reads behind the newest. NotAStore: no slot is open with the text of a store. Device: the disk counted a
/// fault. Damaged: the block that recovery finds damaged. Linear in the manifest and the journal, but for
/// O(log versions_max) at each version and one insertion at each change.
pub(crate) fn recover_store<D: Disk>(alloc: Global, disk: &mut D) -> Result<OpenStore, AttachFault>
    ensures found { IfOk result (λ r. (f : Image) → Exposes (D.view disk.old) f
        → IsRecoveredFrom f r) }
    ensures kept { IfOk result (λ r. (cached : Blocks) → IsConsistent (held_of r cached)) }
    ensures ok { IfOk result (λ r. r.promoting ≡ None) }
    ensures cursors { IfOk result (λ r. r.memory.cursors ≡ no_cursors) }
    ensures filters { IfOk result (λ r. r.filters ≡ replicate 22 no_filters) }
    ensures none { IsErrOf result fault.NotAStore → (f : Image)
        → Exposes (D.view disk.old) f → recover f ≡ Ok None }
    ensures damaged { (block : ℕ) → IsErrOf result (fault.Damaged block) → (f : Image)
        → Exposes (D.view disk.old) f → recover f ≡ Err block }
    ensures same { OnlyReads (D.view disk.old) (D.view disk.new) }
    ensures cause { HasCause fault.Device (D.faults disk.old) (D.faults disk.new) result }
    ensures reads { ReadsAtMost 1052183 (D.reads disk.old) (D.reads disk.new)
        × IfOk result (λ r. ReadsAtMost (chain_length r.sb.length + 2 * region_blocks r.sb.mem + 2)
        (D.reads disk.old) (D.reads disk.new)
        × (length r.journal.list < r.sb.mem
        → ReadsAtMost (chain_length r.sb.length + region_blocks r.sb.mem + 3)
        (D.reads disk.old) (D.reads disk.new))) }
{
    let Some((slot, sb)) = newest(disk)? else {
        return Err(AttachFault::NotAStore);
    };
    let recovered = recover_at(alloc, disk, slot, sb)?;
    Ok(recovered)
}

/// Shuts the first gate of the region that is not active, where it was read open and nothing leads behind it: at most
/// one read, one write and one sync. Meanwhile every crash leaves the same contents.
fn shut_other<D: Disk>(disk: &mut D, sb: &SuperBlock, journal: &Journal) -> Result<(), Failed>
    requires fits { IsLawful (super_of sb.now) }
    ensures trail { (f : Image) (x : Contents) → Exposes (D.view disk.old) f
        → IsDurable (D.view disk.old) → x.sb ≡ super_of sb.now → ReadsAsSound f journal.now.stale x
        → (c : Image) → Since (D.view disk.new) (D.view disk.old).moment c → ReadsAs c x }
    ensures kept { OnOk result ((f : Image) (x : Contents) → Exposes (D.view disk.old) f
        → IsDurable (D.view disk.old) → x.sb ≡ super_of sb.now → ReadsAsSound f journal.now.stale x
        → ContentsStand (D.view disk.new) x) }
    ensures durable { OnOk result ((f : Image) → Exposes (D.view disk.old) f
        → IsDurable (D.view disk.old) → length journal.now.list < sb.now.mem
        → (IsTrue journal.now.stale
        ↔ IsStale f sb.now.mem sb.now.region (length journal.now.list))
        → (c : Image) → Images (D.view disk.new) c
        → c (region_at sb.now.mem (other_region sb.now.region)) ≢ open_flag) }
    ensures images { TearsOnly (D.view disk.old) (D.view disk.new)
        (region_at sb.now.mem (other_region sb.now.region)) 1 }
    ensures same { journal.now.stale ≡ false → disk.new ≡ disk.old }
    ensures time { Passes (D.view disk.old) (D.view disk.new) }
    ensures cause { CountsFaults (D.faults disk.old) (D.faults disk.new) result }
    ensures reads { ReadsAtMost 1 (D.reads disk.old) (D.reads disk.new) }
{
    if journal.stale() {
        close_region(disk, sb.mem, 1 - sb.region)?;
    }
    Ok(())
}

/// Opens the store on a disk. It syncs, and reads what `recover_store` does. If the first gate of the region that is not
/// active was read open while the active one has room, it shuts that gate (a run that was killed in a checkpoint leaves
/// it open): at most one read, one write and one sync more. Until the sync succeeds a crash leaves only what it might
/// have left before. It takes all the memory that the store needs beside its cache until its journal is full, and that of
/// a second level 0 where the journal goes on in the other region. After an error other than `Device` the disk is as it
/// was; after that one too, or its last step failed, which shuts that gate. A disk may be opened each of whose crashes
/// leaves a table, though not all of them one: what a crash leaves meanwhile shows one of these, and afterwards that of
/// the content.
pub fn open<D: Disk>(alloc: Global, disk: &mut D) -> Result<OpenStore, AttachFault>
    ensures ok { IfOk result (λ r. (cap : ℕ)
        → IsOpenedAs (D.view disk.old) (D.view disk.new) (held_of r (empty_cache cap))) }
    ensures kept { IfOk result (λ r. (cached : Blocks) → IsConsistent (held_of r cached)) }
    ensures none { IsErrOf result fault.NotAStore → (f : Image)
        → Exposes (D.view disk.old) f → recover f ≡ Ok None }
    ensures damaged { (block : ℕ) → IsErrOf result (fault.Damaged block) → (f : Image)
        → Exposes (D.view disk.old) f → recover f ≡ Err block }
    ensures err { IsErrOf result fault.Device → (f : Image) → Exposes (D.view disk.old) f
        → LeavesOpening (D.view disk.old) (D.view disk.new) f }
    ensures same { IfErr result (λ e. e ≢ fault.Device
        → IsUnchanged (D.view disk.old) (D.view disk.new)) }
    ensures trail { (f : Image) → Exposes (D.view disk.old) f → EachShows (D.view disk.old)
        → (c : Image) → Since (D.view disk.new) (D.view disk.old).moment c
        → ShowsOneOf (D.view disk.old) c }
    ensures images { OnOk result ((f : Image) (t : Table) → Exposes (D.view disk.old) f
        → ShowsTable f t → (c : Image) → Images (D.view disk.new) c → ShowsTable c t) }
    ensures time { Passes (D.view disk.old) (D.view disk.new) }
    ensures cause { HasCause fault.Device (D.faults disk.old) (D.faults disk.new) result }
    ensures reads { ReadsAtMost 1052184 (D.reads disk.old) (D.reads disk.new)
        × IfOk result (λ r. ReadsAtMost (chain_length r.sb.length + 2 * region_blocks r.sb.mem + 3)
        (D.reads disk.old) (D.reads disk.new)
        × (length r.journal.list < r.sb.mem
        → ReadsAtMost (chain_length r.sb.length + region_blocks r.sb.mem + 4)
        (D.reads disk.old) (D.reads disk.new))) }
{
    sync_first(disk)?;
    let recovered = recover_store(alloc, disk)?;
    shut_other(disk, &recovered.sb, &recovered.journal)?;
    Ok(recovered)
}
