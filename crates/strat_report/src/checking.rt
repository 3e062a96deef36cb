//! The check of a store, and the line that says what it found.

ghost use Rattle.std.specs.Prelude.{◌≡◌, ◌∷◌, [], IfOk, codes};
ghost use Rattle.def_crash.specs.Faults.{ReadsAtMost, Rose};
ghost use Rattle.def_crash.specs.Image.{Image};
ghost use Rattle.def_crash.specs.Moments.{Exposes, OnlyReads};
ghost use Rattle.def_check.specs.Checked.{checked};
ghost use Rattle.def_state.specs.Breach.{breach};
ghost use Rattle.def_texts.specs.Texts.{text, breach_line, damaged_line};
ghost use Rattle.strat_report.specs.Checking.{says_nothing, verdict_text, verdict_end, EndsCheck, SaysCheck, WritesCheck};
ghost use Rattle.strat_report.specs.Reporting.{IsSilent, ReportHasCause};

use crate::reporting::damage_of;
use std::alloc::{AllocError, Global};
use strat_base::Failed;
use strat_check::verdict::{Verdict, check};
use strat_disk::Disk;
use strat_io::{Sink, put_all};
use strat_model::Ended;

/// The line of a rule that is broken, by its letter, with the level and the array that break it.
fn unsound_line(alloc: Global, rule: u8, level: u8, array: u64) -> Result<Vec<u8>, AllocError>
    ensures ok { IfOk result (λ line. line.items
        ≡ text (breach_line (breach rule level array) ∷ [])) }
{
    let place = format!(in alloc; " level {level} array {array}\n")?;
    let mut line = Vec::new(alloc);
    line.extend_from_slice(b"unsound ")?;
    line.push(rule)?;
    line.extend_from_slice(place.as_bytes())?;
    Ok(line)
}

/// The line of a damaged block.
fn damaged_bytes(alloc: Global, block: u32) -> Result<Vec<u8>, AllocError>
    ensures ok { IfOk result (λ line. line.items ≡ text (damaged_line block ∷ [])) }
{
    let line = damage_of(alloc, block)?;
    let bytes = line.as_bytes().to_vec(alloc)?;
    Ok(bytes)
}

/// The line of a sound store.
fn sound_bytes(alloc: Global) -> Result<Vec<u8>, AllocError>
    ensures ok { IfOk result (λ line. line.items ≡ text (codes "sound" ∷ [])) }
{
    let bytes = b"sound\n".to_vec(alloc)?;
    Ok(bytes)
}

/// Whether nothing is said of a verdict: no store was found, or none was checked.
fn is_quiet(verdict: Verdict) -> bool
    ensures ok { result ≡ says_nothing verdict }
{
    match verdict {
        Verdict::NotAStore | Verdict::Device | Verdict::NoMemory => true,
        Verdict::Sound | Verdict::Unsound { .. } | Verdict::Damaged { .. } => false,
    }
}

/// What is said of a verdict: a line, or nothing.
fn said_of(alloc: Global, verdict: Verdict) -> Result<Vec<u8>, AllocError>
    ensures ok { IfOk result (λ line. line.items ≡ verdict_text verdict) }
{
    match verdict {
        Verdict::Sound => sound_bytes(alloc),
        Verdict::Unsound { rule, level, array } => unsound_line(alloc, rule, level, array),
        Verdict::Damaged { block } => damaged_bytes(alloc, block),
        Verdict::NotAStore | Verdict::Device | Verdict::NoMemory => Ok(Vec::new(alloc)),
    }
}

/// How a check with a verdict ends, if the sink takes what is said.
fn end_of(verdict: Verdict) -> Ended
    ensures ok { result ≡ verdict_end verdict }
{
    match verdict {
        Verdict::Sound => Ended::Done,
        Verdict::Unsound { .. } => Ended::Unsound,
        Verdict::Damaged { block } => Ended::Damaged { block },
        Verdict::NotAStore => Ended::NotAStore,
        Verdict::Device => Ended::Device,
        Verdict::NoMemory => Ended::NoMemory,
    }
}

/// Writes what a check of the store on a disk finds: that it is sound, or the first rule that it breaks, or a damaged block.
/// It leaves the disk as it is, and writes nothing before the whole check is done. Done: the store is sound, and the line that
/// says so was written. Unsound, Damaged: the line was written. NotAStore, Device, NoMemory: nothing was written. Sink: the
/// front of the line was. Cost as `check` says.
pub fn write_check<K: Sink, D: Disk>(alloc: Global, disk: &mut D, sink: &mut K) -> Ended
    ensures ok { (f : Image) → Exposes (D.view disk.old) f
        → WritesCheck (checked f) result (K.held sink.old) (K.held sink.new) }
    ensures found { ¬ Rose (D.faults disk.old) (D.faults disk.new)
        → ¬ Rose (K.faults sink.old) (K.faults sink.new)
        → (f : Image) → Exposes (D.view disk.old) f
        → SaysCheck (checked f) result (K.held sink.old) (K.held sink.new) }
    ensures end { EndsCheck result }
    ensures err { IsSilent result → sink.new ≡ sink.old }
    ensures same { OnlyReads (D.view disk.old) (D.view disk.new) }
    ensures cause { ReportHasCause result (D.faults disk.old) (D.faults disk.new)
        (K.faults sink.old) (K.faults sink.new) }
    ensures reads { ReadsAtMost 101715479 (D.reads disk.old) (D.reads disk.new) }
{
    let verdict = check(alloc, disk);
    if is_quiet(verdict) {
        return end_of(verdict);
    }
    let Ok(line) = said_of(alloc, verdict) else {
        return Ended::NoMemory;
    };
    match put_all(sink, &line) {
        Ok(()) => end_of(verdict),
        Err(Failed) => Ended::Sink,
    }
}
