pub const TEXT: &[u8] =
    br#"Gif -> Sig[0, 6] Screen[6, 13] Table[13, 13 + Screen.gct] Blocks[13 + Screen.gct, EOI]
  Rest[Blocks.end, EOI] ;
Sig -> "GIF87a" / "GIF89a" ;
Screen -> U16LE {width = U16LE.val} U16LE {height = U16LE.val} U8 {flags = U8.val} U8 U8
  {gct = flags >= 128 ? 3 * (1 << ((flags & 7) + 1)) : 0} ;
Table -> Bytes ;
Blocks -> many Block "\x3b" ;
Block -> Ext / Image ;
Ext -> "\x21" U8 {label = U8.val} Subs ;
Image -> "\x2c" U16LE {left = U16LE.val} U16LE {top = U16LE.val}
  U16LE {width = U16LE.val} U16LE {height = U16LE.val} U8 {flags = U8.val}
  {lct = flags >= 128 ? 3 * (1 << ((flags & 7) + 1)) : 0} Bytes[lct] U8 {code = U8.val} Subs ;
Subs -> many Sub "\x00" ;
Sub -> U8 ?(U8.val > 0) Bytes[U8.val] ;
Rest -> Bytes ;
"#;
