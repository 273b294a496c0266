use super::count;
use ipg_formats::{Kind, text};
use ipg_read_tokens::tokens;
use std::test::Fail;

/// The counts are those of a scanner of fifteen lines in Python: one regular expression of the
/// token forms, each alternative of a symbol of two bytes before those of one, matched over and over.
#[test]
fn the_built_in_grammars_are_read_whole(rt: HostRuntime) {
    let alloc = rt.alloc();
    assert_eq!(rt; count(alloc, text(Kind::Elf)), 777);
    assert_eq!(rt; count(alloc, text(Kind::Pe)), 386);
    assert_eq!(rt; count(alloc, text(Kind::Gif)), 242);
    assert_eq!(rt; count(alloc, text(Kind::Pcap)), 633);
}

#[test]
fn no_more_memory_than_the_tokens_take(rt: HostRuntime) -> Result<(), Fail> {
    let text = b"# \" a\nab_1 = 0x1f0x 12a (<<=->) \"\\\"\\x41 b\";!= # end";
    let found = tokens(rt.alloc(), text)?;
    assert_eq!(rt; found.len(), 14);
    assert_eq!(rt; found.capacity(), found.len());
    Ok(())
}
