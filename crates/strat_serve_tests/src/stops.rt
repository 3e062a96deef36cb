//! Runs over several checkpoints, stopped at each call of their disk, crashed, opened again, and gone on with.

ghost use Rattle.std.specs.Prelude.{◌≤◌, ◌+◌, ◌^◌};

use crate::scripts::{
    Beside, CHANGES, LOOKS, SLICING, Script, all_accepted, changes_among, changes_of,
    count_accepted, fresh_beside, stay_alike,
};
use crate::support::{THIRTEEN_PUTS, new_store, old_store, run, small_store};
use std::alloc::Global;
use strat_base::PairBuf;
use strat_disk::{Disk, FuseDisk, MemDisk};
use strat_gate::newest;
use strat_store::{AttachFault, Store};

/// A list of changes, how many they are, those that look up what they set, and how many of the changes become durable
/// together at most; and the commands of the run that is stopped, with which the changes come.
#[derive(Clone, Copy)]
pub(crate) struct Plan {
    pub run: Run,
    pub script: Script,
    pub most: u32,
    pub look: Script,
    pub looks: u32,
    pub batch: u32,
}

/// What a run is given that is stopped.
#[derive(Clone, Copy)]
pub(crate) enum Run {
    /// The changes alone.
    Changes,
    /// The changes with commands about cursors between them.
    Slicing,
}

/// How many of the changes of a run a store accepts, where it is asked for all of them.
fn changes_accepted<D: Disk>(
    store: &mut Store,
    disk: &mut D,
    out: &mut PairBuf,
    plan: Plan,
) -> u32 {
    match plan.run {
        Run::Changes => count_accepted(store, disk, out, plan.script, plan.most),
        Run::Slicing => changes_among(count_accepted(store, disk, out, Script::Slicing, SLICING)),
    }
}

/// How many changes a store on a disk acknowledges: none where the disk fails as it is opened.
fn acknowledged<D: Disk>(alloc: Global, disk: &mut D, plan: Plan) -> Option<u32> {
    let mut out = PairBuf::new(alloc).ok()?;
    match Store::attach(alloc, disk) {
        Ok(mut store) => Some(changes_accepted(&mut store, disk, &mut out, plan)),
        Err(AttachFault::Device) => Some(0),
        Err(_) => None,
    }
}

/// Whether a store has what the plain table has after the first so many commands.
fn has_same<D: Disk>(
    store: &mut Store,
    disk: &mut D,
    beside: &mut Beside,
    plan: Plan,
    has: u32,
) -> bool
    requires room { beside.old.plain.next_cursor ≤ 1 }
    ensures room { beside.new.plain.next_cursor ≤ 2 ^ 34 }
{
    all_accepted(beside, plan.script, has)
        && stay_alike(store, disk, beside, plan.look, 0, plan.looks)
}

/// Whether both have the same after the rest of the commands, too.
fn goes_on<D: Disk>(
    store: &mut Store,
    disk: &mut D,
    beside: &mut Beside,
    plan: Plan,
    has: u32,
) -> bool
    requires room { beside.old.plain.next_cursor ≤ 2 ^ 34 }
{
    stay_alike(store, disk, beside, plan.script, has, plan.most)
        && stay_alike(store, disk, beside, plan.look, 0, plan.looks)
}

/// Whether a store has the table after a prefix of the commands, with all that were acknowledged and at most a batch more,
/// and, where it is to, goes on from there.
fn keeps_prefix<D: Disk>(
    alloc: Global,
    store: &mut Store,
    disk: &mut D,
    plan: Plan,
    done: u32,
    going: bool,
) -> Option<bool> {
    let mut beside = fresh_beside(alloc).ok()?;
    let has = changes_of(store, disk, &mut beside.told)?;
    Some(
        done <= has
            && has <= done.saturating_add(plan.batch)
            && has_same(store, disk, &mut beside, plan, has)
            && (!going || goes_on(store, disk, &mut beside, plan, has)),
    )
}

/// The same of the store that a disk opens as.
pub(crate) fn has_prefix<D: Disk>(
    alloc: Global,
    disk: &mut D,
    plan: Plan,
    done: u32,
    going: bool,
) -> Option<bool> {
    let mut store = Store::attach(alloc, disk).ok()?;
    keeps_prefix(alloc, &mut store, disk, plan, done, going)
}

/// A disk that crashed, after an opening that was stopped after so many calls and crashed as well.
fn reopened(alloc: Global, disk: &MemDisk, choice: u8, calls: u64) -> Option<MemDisk> {
    let mut fuse = FuseDisk::new(disk.crash(choice).ok()?, calls);
    let opened = Store::attach(alloc, &mut fuse).is_ok();
    let disk = fuse.into_inner();
    if opened && calls < 3 {
        return None;
    }
    disk.crash(choice).ok()
}

/// Whether a crash of this choice leaves such a store, after an opening that was stopped, too.
fn survives(alloc: Global, disk: &MemDisk, choice: u8, plan: Plan, done: u32, calls: u64) -> bool {
    match reopened(alloc, disk, choice, calls % 16) {
        Some(mut after) => {
            let going = calls % 3 == u64::from(choice);
            has_prefix(alloc, &mut after, plan, done, going) == Some(true)
        }
        None => false,
    }
}

/// Whether each crash does.
fn survives_each(alloc: Global, disk: &MemDisk, plan: Plan, done: u32, calls: u64) -> bool {
    for choice in 0..3 {
        if !survives(alloc, disk, choice, plan, done, calls) {
            return false;
        }
    }
    true
}

/// How many commands are acknowledged on a disk that fails after so many calls, where each crash then leaves such a store.
fn stopped(alloc: Global, store: &MemDisk, plan: Plan, calls: u64) -> Option<u32> {
    let mut fuse = FuseDisk::new(store.crash(0).ok()?, calls);
    let done = acknowledged(alloc, &mut fuse, plan)?;
    let disk = fuse.into_inner();
    survives_each(alloc, &disk, plan, done, calls).then_some(done)
}

/// After how many calls all are acknowledged, where each stop leaves such a store.
fn stops(alloc: Global, store: &MemDisk, plan: Plan) -> Option<u64> {
    for calls in 0..1000 {
        if stopped(alloc, store, plan, calls)? == plan.most {
            return Some(calls);
        }
    }
    None
}

/// The changes over levels, alone or with commands about cursors between them.
fn changes_over_levels(run: Run) -> Plan {
    Plan {
        run,
        script: Script::Changes,
        most: CHANGES,
        look: Script::Look,
        looks: LOOKS,
        batch: 1,
    }
}

// A region takes four changes: a promotion is one slice, or two.
#[test]
fn a_crash_leaves_a_prefix_of_changes_over_levels(rt: HostRuntime) {
    let Some(store) = new_store(rt.alloc(), 4, 300, 40) else {
        assert!(rt; false);
        return;
    };
    let plan = changes_over_levels(Run::Slicing);
    assert!(rt; stops(rt.alloc(), &store, plan).is_some_and(|calls| calls > 200));
}

/// The changes with drops, alone.
fn changes_with_drops() -> Plan {
    Plan {
        run: Run::Changes,
        script: Script::Drops,
        most: CHANGES,
        look: Script::Look,
        looks: LOOKS,
        batch: 1,
    }
}

#[test]
fn a_crash_leaves_a_prefix_of_changes_with_drops(rt: HostRuntime) {
    let Some(store) = new_store(rt.alloc(), 4, 300, 40) else {
        assert!(rt; false);
        return;
    };
    let plan = changes_with_drops();
    assert!(rt; stops(rt.alloc(), &store, plan).is_some_and(|calls| calls > 160));
}

// It takes five: a promotion is up to three slices.
#[test]
fn a_crash_leaves_a_prefix_of_changes_over_slices(rt: HostRuntime) {
    let Some(store) = new_store(rt.alloc(), 5, 300, 40) else {
        assert!(rt; false);
        return;
    };
    let plan = changes_over_levels(Run::Slicing);
    assert!(rt; stops(rt.alloc(), &store, plan).is_some_and(|calls| calls > 200));
}

/// Whether a store that took so many changes in one run, and is then opened, has just these, and takes the others as the plain
/// table does, opened again after each.
fn opens_after(alloc: Global, store: &MemDisk, plan: Plan, taken: u32) -> Option<bool> {
    let mut disk = store.crash(0).ok()?;
    let mut out = PairBuf::new(alloc).ok()?;
    let mut first = Store::attach(alloc, &mut disk).ok()?;
    let accepted = count_accepted(&mut first, &mut disk, &mut out, plan.script, taken);
    Some(accepted == taken && has_prefix(alloc, &mut disk, plan, taken, true) == Some(true))
}

/// Whether it is so of each number of changes, and so of each fill that a run leaves.
fn opens_after_each(alloc: Global, store: &MemDisk, plan: Plan) -> bool {
    for taken in 0..CHANGES + 1 {
        if opens_after(alloc, store, plan, taken) != Some(true) {
            return false;
        }
    }
    true
}

#[test]
fn a_store_is_opened_at_each_fill(rt: HostRuntime) {
    let plan = changes_over_levels(Run::Changes);
    let (Some(four), Some(five)) = (
        new_store(rt.alloc(), 4, 300, 40),
        new_store(rt.alloc(), 5, 300, 40),
    ) else {
        assert!(rt; false);
        return;
    };
    assert!(rt; opens_after_each(rt.alloc(), &four, plan));
    assert!(rt; opens_after_each(rt.alloc(), &five, plan));
    assert!(rt; opens_after_each(rt.alloc(), &four, changes_with_drops()));
}

/// Whether the newest superblock on a disk says the format that the store was made in if it is the first one, and otherwise
/// format 2.
fn says_its_format(disk: &mut MemDisk, made_in: u16) -> bool {
    match newest(disk) {
        Ok(Some((_, sb))) if sb.generation == 1 => sb.format == made_in,
        Ok(Some((_, sb))) => sb.format == 2,
        _ => false,
    }
}

/// Whether it does after each crash.
fn leaves_old_or_new(disk: &MemDisk, made_in: u16) -> bool {
    (0..3).all(|choice| match disk.crash(choice) {
        Ok(mut after) => says_its_format(&mut after, made_in),
        Err(_) => false,
    })
}

/// How many of the thirteen puts a run on a disk that fails after so many calls answers as done, where each crash then
/// leaves such a store.
fn served(alloc: Global, store: &MemDisk, plan: Plan, made_in: u16, calls: u64) -> Option<u32> {
    let mut fuse = FuseDisk::new(store.crash(0).ok()?, calls);
    let (_, sink) = run(alloc, &mut fuse, THIRTEEN_PUTS)?;
    let done = done_in(sink.bytes());
    let disk = fuse.into_inner();
    let leaves = leaves_old_or_new(&disk, made_in)
        && survives_each(alloc, &disk, plan, done, calls);
    leaves.then_some(done)
}

/// How many of the replies to puts say that one was done.
fn done_in(replies: &[u8]) -> u32 {
    let done = replies
        .chunks(9)
        .filter(|reply| reply.last() == Some(&0))
        .count();
    done.min(13) as u32
}

/// After how many calls a run answers each of the thirteen as done, where each stop leaves such a store.
fn served_stops(alloc: Global, store: &MemDisk, plan: Plan, made_in: u16) -> Option<u64> {
    for calls in 0..1000 {
        if served(alloc, store, plan, made_in, calls)? == 13 {
            return Some(calls);
        }
    }
    None
}

/// Whether a store keeps every put that was acknowledged, wherever it is stopped.
fn keeps_puts(alloc: Global, store: Option<MemDisk>, made_in: u16) -> bool {
    let plan = Plan {
        run: Run::Changes,
        script: Script::Thirteen,
        most: 13,
        look: Script::LookThirteen,
        looks: 13,
        batch: 4,
    };
    match store {
        Some(store) => {
            served_stops(alloc, &store, plan, made_in).is_some_and(|calls| calls > 52)
        }
        None => false,
    }
}

#[test]
fn a_crash_leaves_every_put_that_was_acknowledged(rt: HostRuntime) {
    assert!(rt; keeps_puts(rt.alloc(), small_store(rt.alloc()), 2));
}

// The first checkpoint brings it to format 2.
#[test]
fn a_crash_leaves_every_put_in_an_old_store(rt: HostRuntime) {
    assert!(rt; keeps_puts(rt.alloc(), old_store(rt.alloc()), 1));
}
