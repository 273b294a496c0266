use crate::columns::{put_bare_line, put_line, put_more_line};
use crate::cut::Cut;
use ipg_outside::MemSink;
use ipg_tree::Tail;
use std::test::Fail;

#[test]
fn lines_of_bytes(rt: HostRuntime) -> Result<(), Fail> {
    let mut out = MemSink::new(rt.alloc(), 1 << 10, &[])?;
    let mut line = Tail::new();
    let mut text = Cut::new();
    text.push(b"  Bytes ");
    text.push_signed(-5);
    let wrote = [
        put_line(
            &mut out,
            &mut line,
            0x1234_5678_9abc,
            b"\x1b[31m\x00\xff ",
            &text,
        ),
        put_more_line(&mut out, &mut line, 16, b"0123456789abcdef"),
        put_more_line(&mut out, &mut line, 32, b""),
        put_bare_line(&mut out, &mut line, &text),
    ];
    assert_eq!(rt; wrote, [Ok(()); 4]);
    let want =
        b"56789abc  1b 5b 33 31 6d 00 ff 20                         |.[31m..         |    Bytes -5\n\
          00000010  30 31 32 33 34 35 36 37 38 39 61 62 63 64 65 66 |0123456789abcdef|\n\
          \x20                                                                               Bytes -5\n";
    assert_eq!(rt; out.bytes(), want.as_slice());
    Ok(())
}

#[test]
fn a_text_is_cut(rt: HostRuntime) -> Result<(), Fail> {
    let mut out = MemSink::new(rt.alloc(), 1 << 10, &[])?;
    let mut line = Tail::new();
    let mut text = Cut::new();
    text.push(&[b'a'; 53]);
    text.push(b"\t");
    let fits = put_bare_line(&mut out, &mut line, &text);
    text.push(b"b");
    let wrote = [fits, put_bare_line(&mut out, &mut line, &text)];
    assert_eq!(rt; wrote, [Ok(()); 2]);
    let shown = out.bytes();
    assert_eq!(rt; shown.len(), 2 * 133);
    assert_eq!(rt;
        &shown[78..133],
        b"aaaaaaaaaaaaaaaaaaaaaaaaaaaaaaaaaaaaaaaaaaaaaaaaaaaaa.\n".as_slice()
    );
    assert_eq!(rt;
        &shown[211..266],
        b"aaaaaaaaaaaaaaaaaaaaaaaaaaaaaaaaaaaaaaaaaaaaaaaaaaaa..\n".as_slice()
    );
    Ok(())
}
