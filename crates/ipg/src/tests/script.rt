//! Scripts of edits.

use ipg_edit_script::{Edit, read};
use ipg_reader::Fault;
use std::test::*;

/// Texts that are no script, with the first byte at fault.
const NONE: [(&[u8], u64); 13] = [
    (b"0  1 -\n", 2),
    (b"0 1 3", 5),
    (b"0 1 3g", 5),
    (b"0 1 3\n", 5),
    (b"0 1 aF\n", 5),
    (b"4294967296 0 -\n", 9),
    (b"0 42949672950 -\n", 12),
    (b"00 1 -\n", 1),
    (b"0 1 -", 5),
    (b"0 1 \n", 4),
    (b"0 1 35\n2", 8),
    (b"0 1 -0\n", 5),
    (b"\n", 0),
];

#[test]
fn two_edits(rt: HostRuntime) -> Result<(), Fail> {
    let edits = read(rt.alloc(), b"0 1 35\n4294967295 10 -\n")
        .ok()
        .ok_or("the text is a script")?;
    let [first, second] = edits.as_slice() else {
        return Err("there are two edits".into());
    };
    assert_eq!(rt; (first.from, first.to), (0, 1));
    assert_eq!(rt; first.with.as_slice(), b"5".as_slice());
    assert_eq!(rt; (second.from, second.to), (4294967295, 10));
    assert_eq!(rt; second.with.len(), 0);
    Ok(())
}

#[test]
fn no_bytes_are_no_edits(rt: HostRuntime) -> Result<(), Fail> {
    let edits = read(rt.alloc(), b"").ok().ok_or("no bytes are a script")?;
    assert_eq!(rt; edits.len(), 0);
    Ok(())
}

#[test]
fn the_first_byte_at_fault(rt: HostRuntime) {
    for (text, place) in NONE {
        assert!(rt; matches!(read(rt.alloc(), text), Err(Fault::At(at)) if at == place));
    }
}
