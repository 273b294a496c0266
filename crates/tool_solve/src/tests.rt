mod least;
mod potentials;

use super::*;
use std::alloc::Global;

/// How many steps refute the system of this size in the family, or none where it is solved.
fn steps(alloc: Global, family: &str, size: u32) -> Result<Option<usize>> {
    match decided(alloc, &system(alloc, family, size)?)? {
        Decision::Solution(_) => Ok(None),
        Decision::Refuted(r) => Ok(Some(r.steps.len())),
    }
}

fn is_refuted_within(alloc: Global, family: &str, size: u32, most: usize) -> Result<bool> {
    Ok(match steps(alloc, family, size)? {
        Some(count) => count <= most,
        None => false,
    })
}

#[test]
fn headers_and_totals_are_refuted_by_one_combine(rt: HostRuntime) -> Result<()> {
    let alloc = rt.alloc();
    assert!(rt; is_refuted_within(alloc, "header", 38, 1)?);
    assert!(rt; is_refuted_within(alloc, "total", 10, 1)?);
    assert!(rt; is_refuted_within(alloc, "dense", 2, 1)?);
    Ok(())
}

#[test]
fn what_does_not_matter_takes_no_steps(rt: HostRuntime) -> Result<()> {
    let alloc = rt.alloc();
    assert!(rt; is_refuted_within(alloc, "rounded", 15, 5)?);
    assert!(rt; is_refuted_within(alloc, "beside", 15, 60)?);
    Ok(())
}

#[test]
fn cuts_take_steps_in_proportion(rt: HostRuntime) -> Result<()> {
    let alloc = rt.alloc();
    assert!(rt; is_refuted_within(alloc, "rounds", 3072, 1100)?);
    assert!(rt; is_refuted_within(alloc, "heavy", 2, 9)?);
    assert!(rt; is_refuted_within(alloc, "parity", 6, 300)?);
    Ok(())
}

#[test]
fn differences_and_slots_are_decided(rt: HostRuntime) -> Result<()> {
    let alloc = rt.alloc();
    assert!(rt; steps(alloc, "chain", 100)?.is_none());
    assert!(rt; is_refuted_within(alloc, "cycle", 100, 1)?);
    assert!(rt; steps(alloc, "open", 20)?.is_none());
    assert!(rt; is_refuted_within(alloc, "closed", 20, 50)?);
    assert!(rt; steps(alloc, "joint", 100)?.is_none());
    Ok(())
}
