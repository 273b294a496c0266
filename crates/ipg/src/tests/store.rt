//! A table file that is read, and such that are at fault.

use ipg_store::{LoadFault, load, loaded};
use std::test::*;

/// The file of `S -> "ab"[0,2] ;`, whose certificate has no entry.
const FILE: [u8; 114] = [
    105, 112, 103, 116, 97, 98, 49, 10, 72, 0, 0, 0, 0, 0, 0, 0, 0, 0, 0, 0, 0, 0, 0, 0, 1, 0, 0,
    0, 0, 0, 0, 0, 1, 0, 0, 0, 0, 0, 0, 0, 83, 0, 1, 0, 0, 0, 0, 0, 0, 0, 1, 0, 0, 0, 0, 0, 0, 0,
    0, 0, 2, 0, 0, 0, 0, 0, 0, 0, 97, 98, 0, 0, 0, 0, 0, 0, 0, 0, 0, 0, 2, 0, 0, 0, 0, 0, 0, 0,
    105, 112, 103, 99, 101, 114, 116, 32, 50, 10, 100, 101, 97, 100, 32, 48, 10, 99, 121, 99, 108,
    101, 115, 32, 48, 10,
];

#[test]
fn is_loaded(rt: HostRuntime) {
    assert!(rt; loaded(rt.alloc(), &FILE).is_ok());
    assert!(rt; load(rt.alloc(), &FILE).is_ok());
}

#[test]
fn faults(rt: HostRuntime) {
    let mut file = FILE;
    file[58] = 9;
    assert!(rt; matches!(load(rt.alloc(), &file), Err(LoadFault::Body { at: 42 })));
    file[0] = 0;
    assert!(rt; matches!(load(rt.alloc(), &file), Err(LoadFault::Magic)));
    assert!(rt; matches!(load(rt.alloc(), &FILE[..15]), Err(LoadFault::Length)));
    assert!(rt;
        matches!(
            load(rt.alloc(), &FILE[..113]),
            Err(LoadFault::CertText { at: 25 })
        )
    );
}
