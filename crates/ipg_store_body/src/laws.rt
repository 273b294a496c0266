//! What holds of bodies, each the contract of a function that calls only the laws it stands on.

ghost use Rattle.ipg_store_body.specs.Laws.{BodyIsOfOne, BodyIsShallow};

use ipg_reader::laws::{numbers_are_exact, texts_are_exact};

/// Bytes are the body of one grammar at most.
pub fn body_is_of_one()
    ensures { BodyIsOfOne }
{
    numbers_are_exact();
    texts_are_exact();
}

/// No expression in a body nests deeper than 400.
pub fn body_is_shallow()
    ensures { BodyIsShallow }
{}
