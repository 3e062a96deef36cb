//! The texts of failures, and what a trouble is made of.

use std::alloc::Global;
use std::test::Fail;
use strat_base::{Failed, Fault, NoMemory, Trouble};

/// Whether a fault is printed so.
fn fault_reads(alloc: Global, fault: Fault, want: &str) -> Result<bool, Fail> {
    let text = format!(in alloc; "{fault}")?;
    Ok(text.as_str() == want)
}

/// Whether a trouble is printed so.
fn trouble_reads(alloc: Global, trouble: Trouble, want: &str) -> Result<bool, Fail> {
    let text = format!(in alloc; "{trouble}")?;
    Ok(text.as_str() == want)
}

#[test]
fn faults_have_texts(rt: HostRuntime) -> Result<(), Fail> {
    for (fault, want) in [
        (Fault::Device, "the device failed"),
        (Fault::Damaged { block: 7 }, "block 7 is damaged"),
    ] {
        assert!(rt; fault_reads(rt.alloc(), fault, want)?);
    }
    Ok(())
}

#[test]
fn troubles_have_texts(rt: HostRuntime) -> Result<(), Fail> {
    for (trouble, want) in [
        (Trouble::NoMemory, "out of memory"),
        (Trouble::Device, "the device failed"),
        (Trouble::Damaged { block: 0 }, "block 0 is damaged"),
    ] {
        assert!(rt; trouble_reads(rt.alloc(), trouble, want)?);
    }
    Ok(())
}

/// The length of a list that grew by a byte.
fn grown(alloc: Global) -> Result<usize, Trouble> {
    let mut bytes = Vec::new(alloc);
    bytes.push(7)?;
    Ok(bytes.len())
}

#[test]
fn failures_become_troubles(rt: HostRuntime) {
    assert!(rt; Trouble::from(Failed) == Trouble::Device);
    assert!(rt; Trouble::from(NoMemory) == Trouble::NoMemory);
    assert!(rt; grown(rt.alloc()) == Ok(1));
}
