//! What is done with a core grammar.

use ipg_app_tree::answering::Room;
use ipg_app_tree::show::Show;

/// What is done with a core grammar.
#[derive(Drop)]
pub enum Task<'a> {
    /// An input is parsed by it.
    Parse {
        input: &'a str,
        room: Room,
        show: Show,
    },
    Check,
    Cert,
    Verify {
        certificate: &'a str,
    },
    Table,
    Cover,
    /// An input is parsed, and again after each edit of a script.
    Edit {
        input: &'a str,
        script: &'a str,
    },
}
