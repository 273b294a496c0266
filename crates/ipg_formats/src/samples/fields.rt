//! Numbers as files hold them: `le` has the low byte first, `be` the high byte.

ghost use Rattle.std.specs.Prelude.{◌≡◌, ◌++◌, OnOk};
ghost use Rattle.ipg_formats.specs.Fields.{le16, le32, le64, be16, be32, counters};

use std::alloc::AllocError;

pub fn bytes(out: &mut Vec<u8>, bytes: &[u8]) -> Result<(), AllocError>
    ensures { OnOk result (out.new.items ≡ out.old.items ++ bytes.now) }
{
    out.extend_from_slice(bytes)
}

#[tactic(auto, unfolding(crate::specs::Fields::le16))]
pub fn le16(out: &mut Vec<u8>, x: u16) -> Result<(), AllocError>
    ensures { OnOk result (out.new.items ≡ out.old.items ++ le16 x) }
{
    out.extend_from_slice(&x.to_le_bytes())
}

#[tactic(auto, unfolding(crate::specs::Fields::le32))]
pub fn le32(out: &mut Vec<u8>, x: u32) -> Result<(), AllocError>
    ensures { OnOk result (out.new.items ≡ out.old.items ++ le32 x) }
{
    out.extend_from_slice(&x.to_le_bytes())
}

#[tactic(auto, unfolding(crate::specs::Fields::le64))]
pub fn le64(out: &mut Vec<u8>, x: u64) -> Result<(), AllocError>
    ensures { OnOk result (out.new.items ≡ out.old.items ++ le64 x) }
{
    out.extend_from_slice(&x.to_le_bytes())
}

#[tactic(auto, unfolding(crate::specs::Fields::be16))]
pub fn be16(out: &mut Vec<u8>, x: u16) -> Result<(), AllocError>
    ensures { OnOk result (out.new.items ≡ out.old.items ++ be16 x) }
{
    out.extend_from_slice(&x.to_be_bytes())
}

#[tactic(auto, unfolding(crate::specs::Fields::be32))]
pub fn be32(out: &mut Vec<u8>, x: u32) -> Result<(), AllocError>
    ensures { OnOk result (out.new.items ≡ out.old.items ++ be32 x) }
{
    out.extend_from_slice(&x.to_be_bytes())
}

/// The bytes 0, 1, 2 and so on, `n` of them; after 255 comes 0.
pub fn counters(out: &mut Vec<u8>, n: u32) -> Result<(), AllocError>
    ensures { OnOk result (out.new.items ≡ out.old.items ++ counters n) }
{
    for i in 0..n {
        out.push((i % 256) as u8)?;
    }
    Ok(())
}
