//! How long samples are, worked by hand.

use ipg_formats::{Kind, sample};
use std::test::Fail;

#[test]
fn samples_are_as_long_as_their_parts(rt: HostRuntime) -> Result<(), Fail> {
    for (kind, none, one, most) in [
        (Kind::Elf, 64, 129, 650_064),
        (Kind::Pe, 200, 241, 410_200),
        (Kind::Gif, 29, 34, 50_029),
        (Kind::Pcap, 24, 86, 620_024),
    ] {
        assert_eq!(rt; sample(rt.alloc(), kind, 0)?.len(), none, "{kind:?}");
        assert_eq!(rt; sample(rt.alloc(), kind, 1)?.len(), one, "{kind:?}");
        assert_eq!(rt; sample(rt.alloc(), kind, 10_000)?.len(), most, "{kind:?}");
    }
    Ok(())
}
