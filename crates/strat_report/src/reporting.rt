//! Reports and summaries: a store is read, what is to be said of it is put together in memory, and that is written.

ghost use Rattle.std.specs.Prelude.{◌≡◌, [], ◌∷◌, IfOk, IfErr, string_bytes};
ghost use Rattle.def_crash.specs.Faults.{HasCause, ReadsAtMost, Rose};
ghost use Rattle.def_crash.specs.Image.{Image};
ghost use Rattle.def_crash.specs.Moments.{Exposes, OnlyReads};
ghost use Rattle.strat_model.specs.declared.ended.Ended.TheVariants as ended;
ghost use Rattle.def_recovery.specs.Opening.{recover};
ghost use Rattle.def_texts.specs.Texts.{text, report, summary, damaged_line};
ghost use Rattle.strat_report.specs.Reporting.{levels_text, summary_text, GivesUp, IsSilent, IsSaid, WritesReport, IsComplete, ReportHasCause};

use crate::levels::add_report;
use crate::summary::add_summary;
use std::alloc::{AllocError, Global};
use strat_base::Failed;
use strat_disk::Disk;
use strat_io::{Sink, put_all};
use strat_model::Ended;
use strat_open::{AttachFault, Reading, read_store};

/// The report of a store.
fn report_of(alloc: Global, store: &Reading) -> Result<String, AllocError>
    ensures ok { IfOk result (λ s. string_bytes s ≡ text (report store.now)) }
{
    let mut out = String::new(alloc);
    add_report(&mut out, store)?;
    Ok(out)
}

/// The summary of a workload with these arguments that left this store.
fn summary_of(alloc: Global, store: &Reading, seed: u64, count: u32) -> Result<String, AllocError>
    ensures ok { IfOk result (λ s. string_bytes s ≡ text (summary store.now seed count)) }
{
    let mut out = String::new(alloc);
    add_summary(&mut out, store, seed, count)?;
    Ok(out)
}

/// The line of a damaged block.
pub(crate) fn damage_of(alloc: Global, block: u32) -> Result<String, AllocError>
    ensures ok { IfOk result (λ s. string_bytes s ≡ text (damaged_line block ∷ [])) }
{
    format!(in alloc; "damaged block {block}\n")
}

/// Reads the store on a disk, and says what its report is and how that ends; or how it gives up.
fn say_levels<D: Disk>(alloc: Global, disk: &mut D) -> Result<(String, Ended), Ended>
    ensures ok { IfOk result (λ r. IsSaid levels_text (D.view disk.old) (string_bytes r.0) r.1) }
    ensures err { IfErr result (λ how. GivesUp (D.view disk.old) how) }
    ensures same { OnlyReads (D.view disk.old) (D.view disk.new) }
    ensures cause { HasCause ended.Device (D.faults disk.old) (D.faults disk.new) result }
    ensures reads { ReadsAtMost 1052183 (D.reads disk.old) (D.reads disk.new) }
{
    let store = match read_store(alloc, disk) {
        Ok(store) => store,
        Err(AttachFault::Damaged { block }) => {
            let Ok(line) = damage_of(alloc, block) else {
                return Err(Ended::NoMemory);
            };
            return Ok((line, Ended::Damaged { block }));
        }
        Err(fault) => return Err(Ended::from(fault)),
    };
    let Ok(text) = report_of(alloc, &store) else {
        return Err(Ended::NoMemory);
    };
    Ok((text, Ended::Done))
}

/// Reads the store on a disk, and says what the summary of its workload is and how that ends; or how it gives up.
fn say_summary<D: Disk>(
    alloc: Global,
    disk: &mut D,
    seed: u64,
    count: u32,
) -> Result<(String, Ended), Ended>
    ensures ok { IfOk result
        (λ r. IsSaid (summary_text seed count) (D.view disk.old) (string_bytes r.0) r.1) }
    ensures err { IfErr result (λ how. GivesUp (D.view disk.old) how) }
    ensures same { OnlyReads (D.view disk.old) (D.view disk.new) }
    ensures cause { HasCause ended.Device (D.faults disk.old) (D.faults disk.new) result }
    ensures reads { ReadsAtMost 1052183 (D.reads disk.old) (D.reads disk.new) }
{
    let store = match read_store(alloc, disk) {
        Ok(store) => store,
        Err(AttachFault::Damaged { block }) => {
            return Ok((String::new(alloc), Ended::Damaged { block }));
        }
        Err(fault) => return Err(Ended::from(fault)),
    };
    let Ok(text) = summary_of(alloc, &store, seed, count) else {
        return Err(Ended::NoMemory);
    };
    Ok((text, Ended::Done))
}

/// Writes the report of the store on a disk: its limits, its journal, its levels with their arrays, and what it stores.
/// It reads what recovery reads, no block of an array, and leaves the disk as it is. All that it says is put together in
/// memory before the first byte is written. Done: all of it was written. Damaged: recovery finds this block damaged, and
/// the line that says so was written. NotAStore, Device, NoMemory: nothing was written. Sink: the front of it was.
/// O(versions + changes of the journal + arrays and versions of their tags), beside what `read_store` says.
pub fn write_levels<K: Sink, D: Disk>(alloc: Global, disk: &mut D, sink: &mut K) -> Ended
    ensures ok { WritesReport levels_text (D.view disk.old) result
        (K.held sink.old) (K.held sink.new) }
    ensures found { ¬ Rose (D.faults disk.old) (D.faults disk.new)
        → ¬ Rose (K.faults sink.old) (K.faults sink.new)
        → (f : Image) → Exposes (D.view disk.old) f
        → IsComplete levels_text (recover f) result (K.held sink.old) (K.held sink.new) }
    ensures err { IsSilent result → sink.new ≡ sink.old }
    ensures same { OnlyReads (D.view disk.old) (D.view disk.new) }
    ensures cause { ReportHasCause result (D.faults disk.old) (D.faults disk.new)
        (K.faults sink.old) (K.faults sink.new) }
    ensures reads { ReadsAtMost 1052183 (D.reads disk.old) (D.reads disk.new) }
{
    let (text, how) = match say_levels(alloc, disk) {
        Ok(said) => said,
        Err(how) => return how,
    };
    match put_all(sink, text.as_bytes()) {
        Ok(()) => how,
        Err(Failed) => Ended::Sink,
    }
}

/// Writes the summary of a workload with these arguments that left the store on a disk: its versions, updates and
/// clones, its levels with what they store, and the least density. As `write_levels`, but that nothing is written where
/// recovery finds a damaged block.
pub fn write_summary<K: Sink, D: Disk>(
    alloc: Global,
    disk: &mut D,
    sink: &mut K,
    seed: u64,
    count: u32,
) -> Ended
    ensures ok { WritesReport (summary_text seed count) (D.view disk.old) result
        (K.held sink.old) (K.held sink.new) }
    ensures found { ¬ Rose (D.faults disk.old) (D.faults disk.new)
        → ¬ Rose (K.faults sink.old) (K.faults sink.new)
        → (f : Image) → Exposes (D.view disk.old) f
        → IsComplete (summary_text seed count) (recover f) result
        (K.held sink.old) (K.held sink.new) }
    ensures err { IsSilent result → sink.new ≡ sink.old }
    ensures same { OnlyReads (D.view disk.old) (D.view disk.new) }
    ensures cause { ReportHasCause result (D.faults disk.old) (D.faults disk.new)
        (K.faults sink.old) (K.faults sink.new) }
    ensures reads { ReadsAtMost 1052183 (D.reads disk.old) (D.reads disk.new) }
{
    let (text, how) = match say_summary(alloc, disk, seed, count) {
        Ok(said) => said,
        Err(how) => return how,
    };
    match put_all(sink, text.as_bytes()) {
        Ok(()) => how,
        Err(Failed) => Ended::Sink,
    }
}
