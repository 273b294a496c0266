//! Marks of rules.

ghost use Rattle.std.specs.Prelude.{◌≡◌};
ghost use Rattle.ipg_core.specs.MustTouch.{is_marked};

/// Whether a rule is marked; one behind the last mark is not.
pub fn is_marked(marks: &[bool], rule: u32) -> bool
    ensures { result ≡ is_marked marks.now rule }
{
    match marks.get(rule as usize) {
        Some(mark) => *mark,
        None => false,
    }
}
