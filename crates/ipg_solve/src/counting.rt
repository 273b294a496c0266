ghost use Rattle.std.specs.Prelude.{◌≡◌, ◌+◌, length, IfOk};
ghost use Rattle.std.specs.List.{flat_map};
ghost use Rattle.ipg_cert.specs.Facts.{facts_of};

use ipg_lin::Formula;
use std::alloc::AllocError;

/// No memory holds so many facts.
const TOO_MANY_FACTS: AllocError = AllocError;

/// The sum.
pub fn counted(a: u64, b: u64) -> Result<u64, AllocError>
    ensures { IfOk result (λ sum. sum ≡ a + b) }
{
    a.checked_add(b).ok_or(TOO_MANY_FACTS)
}

/// How many facts a formula is.
#[cycle(members)]
pub fn count(f: &Formula) -> Result<u64, AllocError>
    ensures { IfOk result (λ n. n ≡ length (facts_of f.now)) }
{
    match f {
        Formula::Atom(_) => Ok(1),
        Formula::All(members) => count_all(members.as_slice()),
        Formula::Any(_) => Ok(1),
    }
}

#[cycle(members)]
fn count_all(members: &[Formula]) -> Result<u64, AllocError>
    ensures { IfOk result (λ n. n ≡ length (flat_map facts_of members.now)) }
{
    let mut n = 0;
    for member in members {
        n = counted(n, count(member)?)?;
    }
    Ok(n)
}
