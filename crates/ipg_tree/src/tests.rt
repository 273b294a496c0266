use crate::json::{put_number, put_raw as raw_object, put_terminal};
use crate::leaf::{put_raw, put_text, put_value};
use crate::tail::Tail;
use ipg_core::grammar::Primitive;
use ipg_mach_nodes::Kid;
use ipg_outside::{MemSink, SinkFault};
use ipg_tree_walk::Visit;
use std::test::Fail;

fn at(depth: u64, from: u64, to: u64) -> Visit {
    Visit {
        depth,
        from,
        to,
        kid: Kid::Raw { from: 0, to: 0 },
        node: None,
    }
}

#[test]
fn lines_of_leaves(rt: HostRuntime) -> Result<(), Fail> {
    let mut out = MemSink::new(rt.alloc(), 1 << 10, &[])?;
    let mut line = Tail::new();
    let bytes = [0xabu8; 33];
    let wrote = [
        put_text(&mut out, at(3, 1, 3), b"\x00\xff"),
        put_raw(&mut out, at(1, 9, 9), b""),
        put_raw(&mut out, at(2, 0, 33), &bytes),
        put_value(&mut out, &mut line, at(1, 0, 8), Primitive::U64LE, 1, 2),
        put_value(&mut out, &mut line, at(12, 8, 9), Primitive::U8, 0, 255),
    ];
    assert_eq!(rt; wrote, [Ok(()); 5]);
    let want =
        b"3 tok 1 3 00ff\n1 Bytes 9 9 -\n2 Bytes 0 33 abababababababababababababababababababababababababababababababab+1\n\
          1 U64LE 0 8 hi=1 lo=2\n12 U8 8 9 val=255\n";
    assert_eq!(rt; out.bytes(), want.as_slice());
    Ok(())
}

#[test]
fn a_write_fails_in_mid_line(rt: HostRuntime) -> Result<(), Fail> {
    let mut out = MemSink::new(rt.alloc(), 1 << 10, &[1])?;
    let wrote = put_text(&mut out, at(3, 1, 3), b"\x00\xff");
    assert_eq!(rt; wrote, Err(SinkFault::Failed));
    assert_eq!(rt; out.bytes(), b"3 tok 1 3 00ff".as_slice());
    Ok(())
}

#[test]
fn objects_of_leaves(rt: HostRuntime) -> Result<(), Fail> {
    let mut out = MemSink::new(rt.alloc(), 1 << 10, &[])?;
    let mut line = Tail::new();
    let bytes = [0xabu8; 33];
    let wrote = [
        put_terminal(&mut out, &mut line, at(3, 1, 3), b"\x00\xff"),
        raw_object(&mut out, &mut line, at(2, 0, 33), &bytes),
        put_number(&mut out, &mut line, at(1, 0, 8), Primitive::U64BE, 1, 2),
        put_number(&mut out, &mut line, at(1, 8, 9), Primitive::U8, 0, 255),
    ];
    assert_eq!(rt; wrote, [Ok(()); 4]);
    let want = b"{\"prim\":\"tok\",\"from\":1,\"to\":3,\"hex\":\"00ff\"}\
          {\"prim\":\"Bytes\",\"from\":0,\"to\":33,\"hex\":\"abababababababababababababababababababababababababababababababab\",\"more\":1}\
          {\"prim\":\"U64BE\",\"from\":0,\"to\":8,\"hi\":1,\"lo\":2}\
          {\"prim\":\"U8\",\"from\":8,\"to\":9,\"val\":255}";
    assert_eq!(rt; out.bytes(), want.as_slice());
    Ok(())
}
