//! The body of a table file.

use ipg_reader::Fault;
use ipg_store_body::read;
use std::test::*;

/// The body of `S -> "ab"[0,2] ;`.
const BODY: [u8; 72] = [
    0, 0, 0, 0, 0, 0, 0, 0, 1, 0, 0, 0, 0, 0, 0, 0, 1, 0, 0, 0, 0, 0, 0, 0, 83, 0, 1, 0, 0, 0, 0,
    0, 0, 0, 1, 0, 0, 0, 0, 0, 0, 0, 0, 0, 2, 0, 0, 0, 0, 0, 0, 0, 97, 98, 0, 0, 0, 0, 0, 0, 0, 0,
    0, 0, 2, 0, 0, 0, 0, 0, 0, 0,
];

#[test]
fn one_rule(rt: HostRuntime) -> Result<(), Fail> {
    let body = read(rt.alloc(), &BODY).ok().ok_or("the bytes are a body")?;
    assert_eq!(rt; body.names.len(), 0);
    assert_eq!(rt; body.rules.len(), 1);
    for rule in body.rules.as_slice() {
        assert_eq!(rt; rule.name.as_slice(), b"S".as_slice());
    }
    Ok(())
}

#[test]
fn no_such_term(rt: HostRuntime) {
    let mut bytes = BODY;
    bytes[42] = 9;
    assert!(rt; matches!(read(rt.alloc(), &bytes), Err(Fault::At(42))));
}
