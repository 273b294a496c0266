pub const TEXT: &[u8] =
    br#"Pcap -> Magic[0, 4] {le = Magic.le} {nano = Magic.nano} Head[4, 24] {link = Head.link}
  many Rec[24, EOI] Tail
  where {
    Half -> ?(le) U16LE {val = U16LE.val} / U16BE {val = U16BE.val} ;
    Word -> ?(le) U32LE {val = U32LE.val} / U32BE {val = U32BE.val} ;
    Head -> Half ?(Half.val == 2) Half ?(Half.val == 4) Word Word
      Word {snap = Word.val} Word {link = Word.val} ;
    Rec -> Word {sec = Word.val} Word {frac = Word.val} Word {cap = Word.val}
      Word {orig = Word.val} switch { case (link == 1) Eth[cap] else Raw[cap] } ;
  } ;
Magic -> "\xd4\xc3\xb2\xa1" {le = 1} {nano = 0} / "\xa1\xb2\xc3\xd4" {le = 0} {nano = 0}
  / "\x4d\x3c\xb2\xa1" {le = 1} {nano = 1} / "\xa1\xb2\x3c\x4d" {le = 0} {nano = 1} ;
Tail -> Bytes ;
Raw -> Bytes ;
Eth -> Bytes[6] Bytes[6] U16BE {type = U16BE.val}
  switch { case (type == 0x800) Ip else Raw } / Bytes ;
Ip -> U8 {version = U8.val >> 4} {hl = (U8.val & 15) * 4} ?(version == 4 && hl >= 20)
  U8 {service = U8.val} U16BE {total = U16BE.val} ?(total >= hl && total <= EOI)
  U16BE {id = U16BE.val} U16BE {frag = U16BE.val} U8 {ttl = U8.val} U8 {proto = U8.val}
  U16BE {sum = U16BE.val} Bytes[4] Bytes[4] Bytes[20, hl]
  switch { case ((frag & 8191) != 0) Raw[hl, total] case (proto == 1) Icmp[hl, total]
    case (proto == 6) Tcp[hl, total] case (proto == 17) Udp[hl, total] else Raw[hl, total] }
  Bytes[total, EOI] / Bytes ;
Icmp -> U8 {type = U8.val} U8 {code = U8.val} U16BE {sum = U16BE.val} Bytes / Bytes ;
Udp -> U16BE {src = U16BE.val} U16BE {dst = U16BE.val} U16BE {length = U16BE.val}
  U16BE {sum = U16BE.val} Bytes / Bytes ;
Tcp -> U16BE {src = U16BE.val} U16BE {dst = U16BE.val} U32BE {seq = U32BE.val}
  U32BE {ack = U32BE.val} U8 {off = (U8.val >> 4) * 4} ?(off >= 20) U8 {flags = U8.val}
  U16BE {window = U16BE.val} U16BE {sum = U16BE.val} U16BE {urgent = U16BE.val}
  Bytes[20, off] Bytes[off, EOI] / Bytes ;
"#;
