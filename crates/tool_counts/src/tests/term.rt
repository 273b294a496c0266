//! The laws stand at a call.

use ipg_term::laws::{loops_arent_accepted, one_loops};

#[test]
fn laws_are_called() {
    loops_arent_accepted();
    one_loops();
}
