//! Parts of an input.

ghost use Rattle.std.specs.Prelude.{◌≡◌, drop, take};
ghost use Rattle.ipg_core.specs.Part.{part as part_of};

/// The bytes from a place on; none behind the last.
fn behind(bytes: &[u8], from: u64) -> &[u8]
    ensures { result.now ≡ drop from bytes.now }
{
    if from < bytes.len() as u64 {
        &bytes[from as usize..]
    } else {
        &[]
    }
}

/// The first bytes; all of them where there are no more.
fn first(bytes: &[u8], count: u64) -> &[u8]
    ensures { result.now ≡ take count bytes.now }
{
    if count < bytes.len() as u64 {
        &bytes[..count as usize]
    } else {
        bytes
    }
}

/// The bytes from a place up to another, as far as there are any.
pub(crate) fn part(bytes: &[u8], from: u64, to: u64) -> &[u8]
    ensures { result.now ≡ part_of bytes.now from to }
{
    first(behind(bytes, from), to.saturating_sub(from))
}
