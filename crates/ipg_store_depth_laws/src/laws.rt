//! Laws, each the contract of a function that calls only the laws it stands on.

ghost use Rattle.ipg_store_depth_laws.specs.Shallow.{TextIsShallow, TextNests};

use ipg_read_canonical_laws::laws::reads_formed;
use ipg_read_syntax::laws::reads_exactly;

/// No expression in the core grammar of a text nests deeper than 257, and so none deeper than a body of a table file may.
pub fn text_is_shallow()
    ensures is { TextIsShallow }
    ensures nests { TextNests }
{
    reads_exactly();
    reads_formed();
}
