//! Journals: the example's bytes, worked crashes, altered records, and regions that are full or stale.

ghost use Rattle.std.specs.Prelude.{◌≡◌, ◌≤◌, ◌+◌, [], length, IfSome, OnOk};
ghost use Rattle.def_bytes.specs.SuperBlock.{IsLawful};
ghost use Rattle.strat_gate.specs.SuperView.{super_of};
ghost use Rattle.strat_journal.specs.Log.{room_of};

use def_bytes::{region_at, region_blocks, region_first};
use std::alloc::Global;
use std::test::Fail;
use strat_base::{Change, Failed, Trouble};
use strat_disk::{Disk, FuseDisk, MemDisk};
use strat_gate::SuperBlock;
use strat_journal::{Journal, Logged, close_region};

// The superblock of an empty store with this journal.
fn block(mem: u32, region: u8) -> SuperBlock
    requires least { 4 ≤ mem }
    requires most { mem ≤ 20 }
    requires region { region ≤ 1 }
    ensures lawful { IsLawful (super_of result) }
    ensures mem { result.mem ≡ mem }
    ensures region { result.region ≡ region }
{
    SuperBlock {
        format: 2,
        generation: 1,
        manifest: 5000,
        length: 38,
        region,
        mem,
        changes_max: 100,
        versions_max: 10,
    }
}

/// The journal of a disk, where it has so many changes.
fn open(alloc: Global, disk: &mut MemDisk, mem: u32, region: u8, len: usize) -> Option<Journal>
    requires least { 4 ≤ mem }
    requires most { mem ≤ 20 }
    requires region { region ≤ 1 }
    ensures { IfSome result (λ j. j.batch ≡ []) }
{
    let Ok((journal, logged)) = Journal::read(alloc, disk, &block(mem, region)) else {
        return None;
    };
    if logged.len() != len || journal.count() as usize != len {
        return None;
    }
    Some(journal)
}

/// Whether an opening of a journal with five changes a region reads so many, or blames this block.
fn reads(alloc: Global, disk: &mut MemDisk, want: Result<usize, u32>) -> bool {
    match (Journal::read(alloc, disk, &block(5, 0)), want) {
        (Ok((_, logged)), Ok(len)) => logged.len() == len,
        (Err(trouble), Err(block)) => trouble == Trouble::Damaged { block },
        _ => false,
    }
}

/// Whether a journal counts so many changes, and has room for so many more.
fn counts(journal: &Journal, count: u32, room: u32, stale: bool) -> bool {
    journal.count() == count && journal.room() == room && journal.stale() == stale
}

// Adds so many puts of one byte each.
fn add_puts(journal: &mut Journal, n: u8)
    requires few { n ≤ 16 }
    requires empty { journal.old.batch ≡ [] }
    requires room { n ≤ room_of journal.old }
    ensures batch { length journal.new.batch ≡ n }
{
    for i in 0..n {
        journal.add(&Change::Put {
            version: 0,
            key: &[i],
            value: b"1",
        });
    }
}

// Appends a batch of so many puts. It fails where there is no room for them.
fn append_puts<D: Disk>(journal: &mut Journal, disk: &mut D, n: u8) -> Result<(), Failed>
    requires few { n ≤ 16 }
    requires empty { journal.old.batch ≡ [] }
    ensures { OnOk result (journal.new.batch ≡ []) }
{
    if n == 0 || journal.room() < u32::from(n) {
        return Err(Failed);
    }
    add_puts(journal, n);
    journal.append(disk)
}

// Appends puts of the longest key and the longest value one by one, as many as there is room for.
fn append_largest(journal: &mut Journal, disk: &mut MemDisk, n: u8) -> Result<(), Failed>
    requires { journal.old.batch ≡ [] }
    ensures { OnOk result (journal.new.batch ≡ []) }
{
    let key = [7; 255];
    let value = [9; 1024];
    for _i in 0..n {
        if journal.room() == 0 {
            return Ok(());
        }
        journal.add(&Change::Put {
            version: 0,
            key: &key,
            value: &value,
        });
        journal.append(disk)?;
    }
    Ok(())
}

/// Whether four of the largest records are put into the first region of five.
fn takes_four(alloc: Global, disk: &mut MemDisk) -> bool {
    let Some(mut journal) = open(alloc, disk, 5, 0, 0) else {
        return false;
    };
    append_largest(&mut journal, disk, 4).is_ok() && counts(&journal, 4, 1, false)
}

const EXAMPLE: [u8; 12] = [0xa7, 1, 0, 0, 0, 0, 1, 0x61, 0, 1, 0x31, 0];

fn example() -> Change<'static> {
    Change::Put {
        version: 0,
        key: b"a",
        value: b"1",
    }
}

/// Whether the example is appended to a new journal, whose opening made two calls, by four more.
fn appends_example(alloc: Global, disk: &mut MemDisk) -> bool {
    let Some(mut journal) = open(alloc, disk, 4, 0, 0) else {
        return false;
    };
    if !counts(&journal, 0, 4, false) || journal.room() != 4 {
        return false;
    }
    journal.add(&Change::Put {
        version: 0,
        key: b"a",
        value: b"1",
    });
    let opened = disk.calls() == 2;
    journal.append(disk).is_ok() && opened && disk.calls() == 6 && counts(&journal, 1, 3, false)
}

/// Whether a disk ends with the example, in the first region.
fn holds_example(disk: &MemDisk) -> bool {
    disk.bytes().len() == 8204 && &disk.bytes()[8192..] == EXAMPLE.as_slice()
}

/// Whether these records are the example in block 2.
fn is_example(logged: &[Logged]) -> bool {
    match logged {
        [record] => record.block == 2 && record.change.as_change() == example(),
        _ => false,
    }
}

/// Whether an opening reads the example.
fn reads_example(alloc: Global, disk: &mut MemDisk) -> bool {
    match Journal::read(alloc, disk, &block(4, 0)) {
        Ok((_, logged)) => is_example(&logged),
        Err(_) => false,
    }
}

#[test]
fn the_example_is_appended_and_read(rt: HostRuntime) -> Result<(), Fail> {
    let mut disk = MemDisk::new(rt.alloc(), &[])?;
    assert!(rt; appends_example(rt.alloc(), &mut disk));
    assert!(rt; holds_example(&disk));
    assert!(rt; reads_example(rt.alloc(), &mut disk));
    Ok(())
}

/// A journal's changes per region, how many changes it has, and how many are in the batch behind them.
#[derive(Clone, Copy)]
struct Batch {
    mem: u32,
    first: u8,
    n: u8,
}

/// Whether a crash leaves the first changes with so many behind them, or these alone where they were not appended.
fn leaves_none_or_all(
    alloc: Global,
    left: &MemDisk,
    choice: u8,
    batch: Batch,
    appended: bool,
) -> bool
    requires { (4 ≤ batch.mem) × (batch.mem ≤ 20) }
{
    let Ok(mut after) = left.crash(choice) else {
        return false;
    };
    let first = usize::from(batch.first);
    let all = open(
        alloc,
        &mut after,
        batch.mem,
        0,
        first + usize::from(batch.n),
    )
    .is_some();
    all || !appended && open(alloc, &mut after, batch.mem, 0, first).is_some()
}

/// Appends the first changes, and a batch behind a fuse of so many calls, and looks at what each crash leaves.
fn is_none_or_all(alloc: Global, mut disk: MemDisk, batch: Batch, calls: u64) -> bool
    requires { (4 ≤ batch.mem) × (batch.mem ≤ 20) × (batch.first ≤ 16) × (batch.n ≤ 16) }
{
    let Some(mut journal) = open(alloc, &mut disk, batch.mem, 0, 0) else {
        return false;
    };
    let Ok(()) = append_puts(&mut journal, &mut disk, batch.first) else {
        return false;
    };
    let mut fuse = FuseDisk::new(disk, calls);
    let appended = append_puts(&mut journal, &mut fuse, batch.n).is_ok();
    let left = fuse.into_inner();
    appended == (calls == 4)
        && leaves_none_or_all(alloc, &left, 0, batch, appended)
        && leaves_none_or_all(alloc, &left, 1, batch, appended)
        && leaves_none_or_all(alloc, &left, 2, batch, appended)
}

/// Whether it is so of a batch at each of its calls.
fn is_whole_at_each_call(rt: &HostRuntime, mem: u32, first: u8, n: u8) -> Result<bool, Fail>
    requires { (4 ≤ mem) × (mem ≤ 20) × (first ≤ 16) × (n ≤ 16) }
{
    for calls in 0..5 {
        let disk = MemDisk::new(rt.alloc(), &[])?;
        if !is_none_or_all(rt.alloc(), disk, Batch { mem, first, n }, calls) {
            return Ok(false);
        }
    }
    Ok(true)
}

#[test]
fn a_crash_leaves_none_of_a_batch_or_all(rt: HostRuntime) -> Result<(), Fail> {
    assert!(rt; is_whole_at_each_call(&rt, 17, 1, 1)?);
    assert!(rt; is_whole_at_each_call(&rt, 17, 1, 2)?);
    assert!(rt; is_whole_at_each_call(&rt, 17, 1, 16)?);
    Ok(())
}

#[test]
fn so_it_does_behind_a_full_region(rt: HostRuntime) -> Result<(), Fail> {
    assert!(rt; is_whole_at_each_call(&rt, 4, 4, 1)?);
    assert!(rt; is_whole_at_each_call(&rt, 4, 4, 2)?);
    assert!(rt; is_whole_at_each_call(&rt, 9, 9, 7)?);
    Ok(())
}

/// Whether a region with four of the largest records, read in five reads, takes one more and no other.
fn takes_a_fifth(alloc: Global, disk: &mut MemDisk) -> bool {
    let Some(mut journal) = open(alloc, disk, 5, 0, 4) else {
        return false;
    };
    let opened = counts(&journal, 4, 1, false) && disk.reads() == 5;
    opened && append_largest(&mut journal, disk, 1).is_ok() && counts(&journal, 5, 3, false)
}

/// Whether three more go behind a full region of five, and no other, each by four calls.
fn takes_three_behind(alloc: Global, disk: &mut MemDisk) -> bool {
    let Some(mut journal) = open(alloc, disk, 5, 0, 5) else {
        return false;
    };
    let opened = disk.calls();
    append_largest(&mut journal, disk, 9).is_ok()
        && disk.calls().checked_sub(opened) == Some(12)
        && counts(&journal, 8, 0, false)
}

/// Whether the gates of these records stand in these blocks.
fn are_in_blocks(logged: &[Logged], blocks: &[u32]) -> bool {
    logged.len() == blocks.len()
        && logged
            .iter()
            .zip(blocks)
            .all(|(record, block)| record.block == *block)
}

/// Whether an opening reads records in these blocks.
fn reads_blocks(alloc: Global, disk: &mut MemDisk, blocks: &[u32]) -> bool {
    match Journal::read(alloc, disk, &block(5, 0)) {
        Ok((_, logged)) => are_in_blocks(&logged, blocks),
        Err(_) => false,
    }
}

/// Puts so many records of a byte each behind a full first region of five.
fn put_behind(disk: &mut MemDisk, n: u8) -> Result<(), Failed> {
    for i in 0..n {
        let at = 16384 + 11 * u64::from(i);
        disk.write_at(at, &[0xa7, 1, 0, 0, 0, 0, 1, 97, 0, 1, 49])?;
    }
    Ok(())
}

#[test]
fn a_journal_goes_on_behind_a_full_region(rt: HostRuntime) -> Result<(), Fail> {
    let mut disk = MemDisk::new(rt.alloc(), &[])?;
    assert!(rt; takes_four(rt.alloc(), &mut disk));
    assert!(rt; takes_a_fifth(rt.alloc(), &mut disk));
    assert!(rt; put_behind(&mut disk, 3).is_ok() && reads(rt.alloc(), &mut disk, Ok(8)));
    assert!(rt; put_behind(&mut disk, 4).is_ok() && reads(rt.alloc(), &mut disk, Err(4)));
    Ok(())
}

#[test]
fn a_region_takes_the_largest_records(rt: HostRuntime) -> Result<(), Fail> {
    let mut disk = MemDisk::new(rt.alloc(), &[])?;
    assert!(rt; takes_four(rt.alloc(), &mut disk));
    assert!(rt; takes_a_fifth(rt.alloc(), &mut disk));
    assert!(rt; disk.bytes().len() == 8192 + 5 * 1288 + 1);
    assert!(rt; reads_blocks(rt.alloc(), &mut disk, &[2, 2, 2, 2, 3]));
    assert!(rt; takes_three_behind(rt.alloc(), &mut disk));
    assert!(rt; disk.bytes().len() == 16384 + 3 * 1288 + 1);
    assert!(rt; reads_blocks(rt.alloc(), &mut disk, &[2, 2, 2, 2, 3, 4, 4, 4]));
    assert!(rt; disk.write_at(16384 + 3 * 1288, &[0xa7]).is_ok());
    assert!(rt; reads(rt.alloc(), &mut disk, Err(4)));
    Ok(())
}

/// Whether a byte put over four of the largest records is read so.
fn is_altered(
    alloc: Global,
    mut disk: MemDisk,
    at: u64,
    byte: u8,
    want: Result<usize, u32>,
) -> bool {
    takes_four(alloc, &mut disk)
        && at < 20000
        && disk.write_at(at, &[byte]).is_ok()
        && reads(alloc, &mut disk, want)
}

#[test]
fn an_altered_record_is_damage(rt: HostRuntime) -> Result<(), Fail> {
    for (at, byte, want) in [
        (8192, 0, Ok(0)),
        (8193, 2, Ok(1)),
        (8193, 3, Ok(1)),
        (8193, 4, Ok(1)),
        (8193, 5, Err(2)),
        (8198, 0, Err(2)),
        (8454, 5, Err(2)),
        (9480, 0x27, Ok(1)),
        (12061, 1, Ok(4)),
        (13344, 0xa7, Err(3)),
        (13344, 0xa6, Ok(4)),
    ] {
        assert!(rt; is_altered(rt.alloc(), MemDisk::new(rt.alloc(), &[])?, at, byte, want));
    }
    Ok(())
}

/// Whether an opening of the second region, by two calls, finds the first one open.
fn finds_stale(alloc: Global, disk: &mut MemDisk) -> bool {
    match open(alloc, disk, 4, 1, 0) {
        Some(journal) => counts(&journal, 0, 4, true) && disk.calls() == 3,
        None => false,
    }
}

/// Whether the first region is closed by three calls, and by one where it is closed.
fn closes(disk: &mut MemDisk) -> bool {
    close_region(disk, 4, 0).is_ok()
        && disk.calls() == 6
        && close_region(disk, 4, 0).is_ok()
        && disk.calls() == 7
}

/// Whether the second region takes two changes.
fn takes_two(alloc: Global, disk: &mut MemDisk) -> bool {
    match open(alloc, disk, 4, 1, 0) {
        Some(mut journal) => {
            counts(&journal, 0, 4, false) && append_puts(&mut journal, disk, 2).is_ok()
        }
        None => false,
    }
}

/// Whether the second region takes two more than two.
fn takes_two_more(alloc: Global, disk: &mut MemDisk) -> bool {
    match open(alloc, disk, 4, 1, 2) {
        Some(mut journal) => {
            append_puts(&mut journal, disk, 2).is_ok() && counts(&journal, 4, 2, false)
        }
        None => false,
    }
}

/// Whether an opening of the second region reads two changes in its first block.
fn reads_two(alloc: Global, disk: &mut MemDisk) -> bool {
    match Journal::read(alloc, disk, &block(4, 1)) {
        Ok((journal, logged)) => !journal.stale() && are_in_blocks(&logged, &[4, 4]),
        Err(_) => false,
    }
}

#[test]
fn a_stale_region_is_closed(rt: HostRuntime) -> Result<(), Fail> {
    let mut disk = MemDisk::new(rt.alloc(), &[])?;
    disk.write_at(8192, &[0xa7, 1, 0, 0, 0, 0, 1, 0x61, 0, 0, 0])?;
    assert!(rt; finds_stale(rt.alloc(), &mut disk));
    assert!(rt; closes(&mut disk));
    assert!(rt; takes_two(rt.alloc(), &mut disk));
    assert!(rt; reads_two(rt.alloc(), &mut disk));
    Ok(())
}

/// Appends one change, puts two in the batch, turns, and appends these.
fn append_and_turn(journal: &mut Journal, disk: &mut MemDisk) -> Result<(), Failed>
    requires { journal.old.batch ≡ [] }
{
    append_puts(journal, disk, 1)?;
    if journal.room() < 2 {
        return Err(Failed);
    }
    add_puts(journal, 2);
    journal.turn(disk)?;
    if journal.room() != 4 {
        return Err(Failed);
    }
    journal.append(disk)
}

/// Whether a turn keeps two changes that stand behind a full region of four, by three calls, and takes two more.
fn keeps_what_is_behind(alloc: Global, disk: &mut MemDisk) -> bool {
    let Some(mut journal) = open(alloc, disk, 4, 0, 0) else {
        return false;
    };
    append_puts(&mut journal, disk, 4).is_ok()
        && append_puts(&mut journal, disk, 2).is_ok()
        && counts(&journal, 6, 0, false)
        && journal.turn(disk).is_ok()
        && disk.calls() == 2 + 4 + 4 + 3
        && counts(&journal, 2, 2, false)
}

#[test]
fn a_turn_keeps_what_is_behind(rt: HostRuntime) -> Result<(), Fail> {
    let mut disk = MemDisk::new(rt.alloc(), &[])?;
    assert!(rt; keeps_what_is_behind(rt.alloc(), &mut disk));
    assert!(rt; reads_two(rt.alloc(), &mut disk));
    assert!(rt; takes_two_more(rt.alloc(), &mut disk));
    Ok(())
}

/// Whether a journal of the first region goes on in the second, by four calls, three and four.
fn goes_on(alloc: Global, disk: &mut MemDisk) -> bool {
    let Some(mut journal) = open(alloc, disk, 4, 0, 0) else {
        return false;
    };
    append_and_turn(&mut journal, disk).is_ok()
        && disk.calls() == 2 + 4 + 3 + 4
        && counts(&journal, 2, 2, false)
}

#[test]
fn a_journal_goes_on_in_the_other_region(rt: HostRuntime) -> Result<(), Fail> {
    let mut disk = MemDisk::new(rt.alloc(), &[])?;
    assert!(rt; goes_on(rt.alloc(), &mut disk));
    assert!(rt; reads_two(rt.alloc(), &mut disk));
    assert!(rt; disk.bytes().len() > 16384 && disk.bytes()[8192] == 0);
    Ok(())
}

#[test]
fn regions_lie_one_behind_the_other(rt: HostRuntime) {
    assert!(rt; region_at(4, 1) == 16384 && region_first(4, 1) == 4);
    assert!(rt; region_blocks(4) == 2 && region_blocks(4096) == 1289);
}
