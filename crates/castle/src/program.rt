//! The subcommands of the program.

ghost use Rattle.std.specs.Prelude.{◌≡◌, map, string_bytes};
ghost use Rattle.def_crash.specs.Moments.{Passes};
ghost use Rattle.strat_loop.specs.World.{world};
ghost use Rattle.castle.specs.Arguments.{subcommand_in};
ghost use Rattle.castle.specs.Outcomes.{Runs, LeavesAlone, text_of};

use crate::arguments::{Subcommand, subcommand_of};
use crate::exporting::export_version;
use crate::formatting::make_store;
use crate::working::run_workload;
use std::alloc::Global;
use strat_disk::Disk;
use strat_follow::{follow, lead};
use strat_io::{Sink, Source};
use strat_model::Ended;
use strat_report::{write_check, write_levels};
use strat_serve::serve;

/// Bytes that one serving run reads at most: 2^40.
pub(crate) const BUDGET: u64 = 1_099_511_627_776;

/// Runs the subcommand that the program's arguments name, and answers its exit status. The arguments come without the
/// program's own name. If they name no subcommand, nothing is read or written.
///
/// - Serving takes the memory for its buffers, versions, journal and level 0 at its start.
/// - A change makes one insertion into level 0. Changes that came together, sixteen at most, make two writes and two
///   syncs. A change that meets a full journal is made alone, behind a slice of the promotion that empties that. The
///   promotion takes memory until its last slice, whose change makes a checkpoint, too.
/// - A get asks level 0, a sealed one, and then one array of each level at most, until one says something.
/// - Opening a cursor copies the items of level 0 and of a sealed one, 12 bytes each, and reads nothing. A level 0 that
///   was emptied stays in memory while a cursor reads it. A page costs what a scan of as many pairs costs.
/// - A report of the levels reads what recovery reads, and no block of an array.
/// - A check reads beside that each block of an array three times at most, and writes nothing to the disk.
/// - A workload makes a store, serves its changes to it and reads it once more.
/// - Leading and following cost what serving does. A leader makes one write more for each change of the journal at its
///   start.
/// - An export of a version reads each block of the version's arrays once, and takes 1.4 MB beside what an opening takes.
pub fn run<S: Source, K: Sink, D: Disk>(
    alloc: Global,
    words: &[String],
    source: &mut S,
    sink: &mut K,
    disk: &mut D,
) -> u8
    ensures ok { Runs (subcommand_in (map string_bytes words.now)) 1099511627776 result
        (world (S.left source.old) (S.faults source.old) (K.held sink.old) (K.faults sink.old)
        (D.view disk.old) (D.faults disk.old))
        (world (S.left source.new) (S.faults source.new) (K.held sink.new) (K.faults sink.new)
        (D.view disk.new) (D.faults disk.new)) }
    ensures same { LeavesAlone (subcommand_in (map string_bytes words.now)) (D.view disk.old)
        result (source.new ≡ source.old) (sink.new ≡ sink.old) (disk.new ≡ disk.old) }
    ensures time { Passes (D.view disk.old) (D.view disk.new) }
{
    match subcommand_of(words) {
        None => Ended::Usage.status(),
        Some(Subcommand::Serve { path: _ }) => serve(alloc, source, sink, disk, BUDGET).status(),
        Some(
            Subcommand::Format {
                path: _,
                mem,
                changes_max,
                versions_max,
            },
        ) => make_store(alloc, sink, disk, mem, changes_max, versions_max).status(),
        Some(Subcommand::Levels { path: _ }) => write_levels(alloc, disk, sink).status(),
        Some(Subcommand::Check { path: _ }) => write_check(alloc, disk, sink).status(),
        Some(
            Subcommand::Workload {
                path: _,
                seed,
                count,
            },
        ) => run_workload(alloc, sink, disk, seed, count).status(),
        Some(Subcommand::Lead { path: _ }) => lead(alloc, source, sink, disk, BUDGET).status(),
        Some(Subcommand::Follow { path: _ }) => follow(alloc, source, sink, disk, BUDGET).status(),
        Some(Subcommand::Export { path: _, version }) => {
            export_version(alloc, sink, disk, version).status()
        }
    }
}

/// What an exit status means, in a few words.
pub fn status_text(status: u8) -> &'static str
    ensures { result.now ≡ text_of status }
{
    match status {
        0 => "done",
        1 => {
            "usage: castle format FILE M C V, serve FILE, levels FILE, check FILE, workload FILE SEED COUNT, lead FILE, follow FILE, export FILE VERSION"
        }
        2 => "not a store",
        3 => "frame too long",
        4 => "truncated input",
        5 => "device fault",
        6 => "source fault",
        7 => "sink fault",
        8 => "no memory",
        9 => "damaged",
        10 => "byte budget",
        11 => "unsound",
        12 => "unknown version",
        _ => "unknown status",
    }
}
