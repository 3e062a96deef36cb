//! `castle`: serves a store of versioned dictionaries over standard input and output.
#![tactic(auto)]

mod any_image;
mod arguments;
mod copies;
mod export_laws;
mod exporting;
mod formatting;
mod headline;
mod laws;
mod links;
mod program;
mod working;

use arguments::path_of;
use links::file_of;
use program::{run, status_text};
use std::fs::OpenOptions;
use std::io::{Eprint, ErrorKind, Input, Print};
use std::os::unix::fs::FileExt;
use std::process::ExitCode;
use std::rt::{Env, Files};
use std::{env, io};
use strat_disk::FileDisk;
use strat_io::{StdSink, StdSource};
use strat_model::Ended;

/// The program's arguments without its name, or how a run ends that cannot have them: one that is
/// no text is no argument of the program.
fn program_arguments<R: Env + AllocGlobal>(rt: &R) -> Result<Vec<String>, Ended> {
    let args = match env::args(rt) {
        Ok(args) => args,
        Err(e) if e.kind() == ErrorKind::InvalidData => return Err(Ended::Usage),
        Err(_) => return Err(Ended::NoMemory),
    };
    let mut words = Vec::new(rt.alloc());
    for word in args.skip(1) {
        words.push(word).map_err(|_| Ended::NoMemory)?;
    }
    Ok(words)
}

/// A folder, opened to be read: as a stream it can be neither read nor written.
fn open_folder<R: Files>(rt: &R) -> io::Result<R::File> {
    match OpenOptions::new().read(true).open(rt, "/") {
        Ok(folder) => Ok(folder),
        Err(_) => OpenOptions::new().read(true).open(rt, "."),
    }
}

/// Runs the program over the standard streams and the file at a path.
fn run_over<R: Input + Print + Files + AllocGlobal>(rt: &R, words: &[String], path: &str) -> u8
where
    R::File: FileExt,
{
    run(
        rt.alloc(),
        words,
        &mut StdSource::new(rt),
        &mut StdSink::new(rt),
        &mut FileDisk::new(rt, path),
    )
}

/// Runs the program over the standard streams and the file that its arguments name.
fn start<R: Env + Input + Print + Files + AllocGlobal>(rt: &R) -> u8
where
    R::File: FileExt,
{
    let words = match program_arguments(rt) {
        Ok(words) => words,
        Err(ended) => return ended.status(),
    };
    let Some(path) = path_of(&words) else {
        // `run` says that these arguments name no subcommand, and opens no file.
        return run_over(rt, &words, "");
    };
    // The system gives an opened file the lowest free number, which is a standard stream's where that is closed. These
    // three take such numbers before the store's file can, and keep them until the run has ended.
    let (Ok(_first), Ok(_second), Ok(_third)) = (open_folder(rt), open_folder(rt), open_folder(rt))
    else {
        return Ended::NoMemory.status();
    };
    // A file is named for good once the folder that it stands in is synced, and not that of a link.
    match file_of(rt, path) {
        Ok(file) => run_over(rt, &words, file.as_str()),
        Err(ended) => ended.status(),
    }
}

fn main(rt: HostRuntime) -> ExitCode {
    let status = start(&rt);
    if status != 0 {
        let _ = eprintln!(rt; "castle: {}", status_text(status));
    }
    ExitCode::from(status)
}

#[cfg(test)]
mod edges;
#[cfg(test)]
mod tests;
