//! The arguments of a command line, as a subcommand of the program.

ghost use Rattle.std.specs.Prelude.{◌≡◌, map, string_bytes};
ghost use Rattle.std.specs.Option.{option_copied};
ghost use Rattle.std.specs.Str.{all_ascii_digits};
ghost use Rattle.strat_base.specs.Finds.{Finds};
ghost use Rattle.castle.specs.Arguments.{is_numeral, number_in, subcommand_seen, opening_in, format_in, workload_in, export_in, subcommand_in, path_in};

use strat_base::limits::{CHANGES_MAX, MEM_MAX, MEM_MIN, VERSIONS_MAX};

/// Most changes of a workload.
const COUNT_MAX: u32 = 1_000_000;

/// What the program is asked to do.
#[derive(Clone, Copy, Debug, PartialEq, Eq)]
pub enum Subcommand<'a> {
    /// To make a store in a file, with so many changes per journal region, changes and versions at
    /// most.
    Format {
        path: &'a str,
        mem: u32,
        changes_max: u32,
        versions_max: u32,
    },
    /// To serve the store in a file.
    Serve {
        path: &'a str,
    },
    /// To report the levels of the store in a file.
    Levels {
        path: &'a str,
    },
    /// To check the store in a file.
    Check {
        path: &'a str,
    },
    /// To serve the store in a file, and to send its changes in place of replies.
    Lead {
        path: &'a str,
    },
    /// To carry out the changes of a leader on the store in a file.
    Follow {
        path: &'a str,
    },
    /// To make a store in a file, and to carry out so many changes on it, which are drawn from this
    /// seed.
    Workload {
        path: &'a str,
        seed: u64,
        count: u32,
    },
    /// To write the pairs of a version of the store in a file as frames of puts.
    Export {
        path: &'a str,
        version: u32,
    },
}

/// Whether bytes are decimal digits.
fn are_digits(bytes: &[u8]) -> bool
    ensures { result ≡ all_ascii_digits bytes.now }
{
    for byte in bytes {
        if !byte.is_ascii_digit() {
            return false;
        }
    }
    true
}

/// Whether an argument is decimal digits, of which the first is 0 only where it is the only one.
fn is_numeral(word: &str) -> bool
    ensures { result ≡ is_numeral word.now }
{
    let digits = word.as_bytes();
    !digits.is_empty() && are_digits(digits) && (digits[0] != b'0' || digits.len() == 1)
}

/// The number of 64 bits that an argument is, where it is a numeral.
fn long_number(word: &str) -> Option<u64>
    ensures { result ≡ number_in 0 18446744073709551615 word.now }
{
    if !is_numeral(word) {
        return None;
    }
    let Ok(n) = word.parse::<u64>() else {
        return None;
    };
    Some(n)
}

/// The number that an argument is, where it is a numeral within a range.
fn number(word: &str, least: u32, most: u32) -> Option<u32>
    ensures { result ≡ number_in least most word.now }
{
    if !is_numeral(word) {
        return None;
    }
    let Ok(n) = word.parse::<u32>() else {
        return None;
    };
    if n < least || most < n {
        return None;
    }
    Some(n)
}

/// The subcommand of opening a store, to serve it, to report its levels, to check it, to lead or to follow, where these
/// arguments ask for one.
fn opening_of<'a>(job: &str, path: &'a str) -> Option<Subcommand<'a>>
    ensures { Finds subcommand_seen result (opening_in job.now path.now) }
{
    if path.is_empty() {
        return None;
    }
    if job == "serve" {
        return Some(Subcommand::Serve { path });
    }
    if job == "levels" {
        return Some(Subcommand::Levels { path });
    }
    if job == "check" {
        return Some(Subcommand::Check { path });
    }
    if job == "lead" {
        return Some(Subcommand::Lead { path });
    }
    if job == "follow" {
        return Some(Subcommand::Follow { path });
    }
    None
}

/// The subcommand of making a store, where these arguments ask for it and the numbers among them
/// are a store's limits.
fn format_of<'a>(
    job: &str,
    path: &'a str,
    mem: &str,
    changes: &str,
    versions: &str,
) -> Option<Subcommand<'a>>
    ensures { Finds subcommand_seen result
        (format_in job.now path.now mem.now changes.now versions.now) }
{
    if job != "format" || path.is_empty() {
        return None;
    }
    let mem = number(mem, MEM_MIN, MEM_MAX)?;
    let changes_max = number(changes, 1, CHANGES_MAX)?;
    let versions_max = number(versions, 1, VERSIONS_MAX)?;
    Some(Subcommand::Format {
        path,
        mem,
        changes_max,
        versions_max,
    })
}

/// The subcommand of carrying out a workload, where these arguments ask for it and the numbers among
/// them are a seed and a count of changes.
fn workload_of<'a>(job: &str, path: &'a str, seed: &str, count: &str) -> Option<Subcommand<'a>>
    ensures { Finds subcommand_seen result (workload_in job.now path.now seed.now count.now) }
{
    if job != "workload" || path.is_empty() {
        return None;
    }
    let seed = long_number(seed)?;
    let count = number(count, 0, COUNT_MAX)?;
    Some(Subcommand::Workload { path, seed, count })
}

/// The subcommand of exporting a version, where these arguments ask for it and the last is a version's number.
fn export_of<'a>(job: &str, path: &'a str, version: &str) -> Option<Subcommand<'a>>
    ensures { Finds subcommand_seen result (export_in job.now path.now version.now) }
{
    if job != "export" || path.is_empty() {
        return None;
    }
    let version = number(version, 0, u32::MAX)?;
    Some(Subcommand::Export { path, version })
}

/// The subcommand that the arguments name, where they name one: `format FILE M C V`, `serve
/// FILE`, `levels FILE`, `check FILE`, `workload FILE SEED COUNT`, `lead FILE`, `follow FILE` or `export FILE VERSION`.
pub fn subcommand_of(words: &[String]) -> Option<Subcommand<'_>>
    ensures { Finds subcommand_seen result (subcommand_in (map string_bytes words.now)) }
{
    if let [job, path] = words {
        return opening_of(job.as_str(), path.as_str());
    }
    if let [job, path, version] = words {
        return export_of(job.as_str(), path.as_str(), version.as_str());
    }
    if let [job, path, seed, count] = words {
        return workload_of(job.as_str(), path.as_str(), seed.as_str(), count.as_str());
    }
    if let [job, path, mem, changes, versions] = words {
        return format_of(
            job.as_str(),
            path.as_str(),
            mem.as_str(),
            changes.as_str(),
            versions.as_str(),
        );
    }
    None
}

/// The file that the arguments name, where they name a subcommand.
pub fn path_of(words: &[String]) -> Option<&str>
    ensures { option_copied result ≡ path_in (map string_bytes words.now) }
{
    match subcommand_of(words) {
        Some(
            Subcommand::Format {
                path,
                mem: _,
                changes_max: _,
                versions_max: _,
            },
        ) => Some(path),
        Some(Subcommand::Serve { path }) => Some(path),
        Some(Subcommand::Levels { path }) => Some(path),
        Some(Subcommand::Check { path }) => Some(path),
        Some(Subcommand::Lead { path }) => Some(path),
        Some(Subcommand::Follow { path }) => Some(path),
        Some(
            Subcommand::Workload {
                path,
                seed: _,
                count: _,
            },
        ) => Some(path),
        Some(Subcommand::Export { path, version: _ }) => Some(path),
        None => None,
    }
}
