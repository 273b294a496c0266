ghost use Rattle.std.specs.Prelude.{◌≡◌, map};
ghost use Rattle.ipg_lin.specs.Form.{terms_width};
ghost use Rattle.ipg_lin.specs.Formula.{width, greatest};

use ipg_lin::Formula;

/// The least number that is above each variable of the formula.
#[cycle(members)]
pub fn width_of(f: &Formula) -> u128
    ensures { result ≡ width f.now }
{
    match f {
        Formula::Atom(form) => terms_width(form.terms()),
        Formula::All(members) => greatest(members.as_slice()),
        Formula::Any(members) => greatest(members.as_slice()),
    }
}

#[cycle(members)]
fn greatest(members: &[Formula]) -> u128
    ensures { result ≡ greatest (map width members.now) }
{
    let mut greatest = 0u128;
    for member in members {
        greatest = greatest.max(width_of(member));
    }
    greatest
}

fn terms_width(terms: &[(u64, i64)]) -> u128
    ensures { result ≡ terms_width terms.now }
{
    let mut width = 0u128;
    for term in terms {
        width = width.max(u128::from(term.0) + 1);
    }
    width
}
