pub const TEXT: &[u8] =
    br#"Elf -> "\x7fELF"[0, 4] Id[4, 16] {le = Id.order == 1} {c64 = Id.class == 2} {len = EOI}
  Head[16, c64 ? 64 : 52]
  for i = 0 to Head.phnum do Ph[Head.phoff + i * Head.phsize, Head.phoff + (i + 1) * Head.phsize]
  for i = 0 to Head.shnum do Sh[Head.shoff + i * Head.shsize, Head.shoff + (i + 1) * Head.shsize]
  for i = 0 to Head.shnum do Raw[Sh(i).rf, Sh(i).rt]
  for i = 0 to Head.shnum do Syms[Sh(i).sf, Sh(i).st]
  where {
    Half -> ?(le) U16LE {val = U16LE.val} / U16BE {val = U16BE.val} ;
    Word -> ?(le) U32LE {val = U32LE.val} / U32BE {val = U32BE.val} ;
    Addr -> ?(c64 == 0) Word {hi = 0} {lo = Word.val}
      / ?(le) U64LE {hi = U64LE.hi} {lo = U64LE.lo}
      / U64BE {hi = U64BE.hi} {lo = U64BE.lo} ;
    Head -> Half {type = Half.val} Half {machine = Half.val} Word {version = Word.val}
      Addr {entryhi = Addr.hi} {entrylo = Addr.lo}
      Addr ?(Addr.hi == 0) {phoff = Addr.lo} Addr ?(Addr.hi == 0) {shoff = Addr.lo}
      Word {flags = Word.val} Half {ehsize = Half.val}
      Half {phsize = Half.val} Half {phnum = Half.val}
      Half {shsize = Half.val} Half {shnum = Half.val} Half {shstrndx = Half.val} ;
    Ph -> ?(c64) Word {type = Word.val} Word {flags = Word.val} Addr Addr Addr Addr Addr Addr
      / ?(c64 == 0) Word {type = Word.val} Addr Addr Addr Addr Addr Word {flags = Word.val} Word ;
    Sh -> Word {name = Word.val} Word {type = Word.val} Addr Addr
      Addr {oh = Addr.hi} {off = Addr.lo} Addr {sh = Addr.hi} {size = Addr.lo}
      Word Word Addr Addr
      {ok = type != 0 && type != 8 && oh == 0 && sh == 0 && off + size <= len}
      {sym = ok && type == 2}
      {rf = ok && !sym ? off : 0} {rt = ok && !sym ? off + size : 0}
      {sf = sym ? off : 0} {st = sym ? off + size : 0} ;
    Syms -> {w = c64 ? 24 : 16} {n = EOI / w} for i = 0 to n do Sym[i * w, (i + 1) * w] ;
    Sym -> ?(c64) Word {name = Word.val} U8 {info = U8.val} U8 Half {shndx = Half.val} Addr Addr
      / ?(c64 == 0) Word {name = Word.val} Addr Addr U8 {info = U8.val} U8 Half {shndx = Half.val} ;
  } ;
Id -> U8 {class = U8.val} ?(class == 1 || class == 2)
  U8 {order = U8.val} ?(order == 1 || order == 2)
  U8 ?(U8.val == 1) U8 {osabi = U8.val} U8 {abiver = U8.val} Bytes ;
Raw -> Bytes ;
"#;
