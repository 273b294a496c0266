use super::answer;
use ipg_formats::{Kind, text};

/// The counts are those of a script that counts the arrows outside of each `where`.
#[test]
fn the_built_in_grammars_read(rt: HostRuntime) {
    let alloc = rt.alloc();
    assert_eq!(rt; answer(alloc, text(Kind::Elf)), 3);
    assert_eq!(rt; answer(alloc, text(Kind::Pe)), 5);
    assert_eq!(rt; answer(alloc, text(Kind::Gif)), 11);
    assert_eq!(rt; answer(alloc, text(Kind::Pcap)), 9);
}
