//! What holds of core grammars, the contract of a function that does nothing.

ghost use Rattle.ipg_app.specs.Laws.{BeginsAsCheck, CertIsVerified, CoveredIsRebuilt, OneCore, OneCheck, OneEdits, OneExplained};
ghost use Rattle.ipg_app.specs.Laws.{FollowEndsAsParse, OneCleared, OneFollowed, OneParse, OneReply, OneTrial, OneVerdict, TableIsLoaded};

use ipg_app_values::laws::noted_once;
use ipg_core::laws::heights_agree;
use ipg_cover::laws::{covered_has_no_gap, one_gap};
use ipg_cover_laws::laws::covered_comes_back;
use ipg_cover_leaves::laws::answers_are_one;
use ipg_edit_laws::laws::keys_after_are_known;
use ipg_edit_script::laws::one_script;
use ipg_mach_count_laws::laws::{
    all_where_none_kept, fresh_at_any_height, keys_are_known, one_fresh, one_reach,
};
use ipg_mach_watch::laws::{end_is_meant, one_findings};
use ipg_order::laws::{good_is_not_stuck, orders_once, stuck_once};
use ipg_proof::laws::{fault_is_one, proves_is_accepted, proves_is_no_fault};
use ipg_query_path::laws::one_path;
use ipg_store::laws::load_once;
use ipg_term::laws::{loops_arent_accepted, one_loops};
use ipg_touch::laws::one_limit;

/// A text has one core grammar, or is refused in one way.
pub fn one_core()
    ensures { OneCore }
{
    one_limit();
    orders_once();
    good_is_not_stuck();
    stuck_once();
}

/// A core grammar is accepted, or is refused in one way.
pub fn one_check()
    ensures { OneCheck }
{
    loops_arent_accepted();
    one_loops();
}

/// An input has one parse: of `parse`, with the memo or without and in a heap of any size, one thing is said.
pub fn one_parse()
    ensures { OneParse }
{
    heights_agree();
    answers_are_one();
}

/// Of an input that a script edits one thing is said.
pub fn one_edits()
    ensures { OneEdits }
{
    heights_agree();
    fresh_at_any_height();
    one_fresh();
    keys_are_known();
    keys_after_are_known();
}

/// Of a trial one thing is said.
pub fn one_trial()
    ensures { OneTrial }
{
    heights_agree();
    fresh_at_any_height();
    one_reach();
    all_where_none_kept();
}

/// Of a text under a name `explain` says one thing.
pub fn one_explained()
    ensures { OneExplained }
{
    one_limit();
    orders_once();
    good_is_not_stuck();
    stuck_once();
    loops_arent_accepted();
    one_loops();
    noted_once();
}

/// A text has one grammar by which parsing ends, or one reason against it.
pub fn one_cleared()
    ensures { OneCleared }
{
    one_limit();
    orders_once();
    good_is_not_stuck();
    stuck_once();
    loops_arent_accepted();
    one_loops();
    noted_once();
}

/// Of an input by a grammar `explain` says one thing.
pub fn one_followed()
    ensures { OneFollowed }
{
    one_findings();
}

/// What `explain` says of an input has the status of what `parse` says of it.
pub fn follow_ends_as_parse()
    ensures { FollowEndsAsParse }
{
    end_is_meant();
}

/// What `explain` says of a text has the status of what `check` says of it, and begins with its line.
pub fn explain_begins_as_check()
    ensures { BeginsAsCheck }
{}

/// Of a file of which something is told `check` says one thing.
pub fn one_verdict()
    ensures { OneVerdict }
{
    one_core();
    one_check();
}

/// Of a file that holds what `cert` writes `verify` says one thing, that it proves the grammar.
pub fn cert_is_verified()
    ensures { CertIsVerified }
{
    one_limit();
}

/// Of a file that holds what `table` writes of a grammar, and an input, `load` says what `parse` says by that grammar.
pub fn table_is_loaded()
    ensures { TableIsLoaded }
{
    load_once();
    one_check();
    proves_is_accepted();
}

/// Where `cover` says that a grammar leaves no byte out, `rebuild` gives back each input that has a tree.
pub fn covered_is_rebuilt()
    ensures { CoveredIsRebuilt }
{
    one_parse();
    covered_comes_back();
}

/// To words, and files of each of which something is told, the program says one thing: one status and one text. `cert` and `table` alone may
/// say several, the texts or table files of certificates that prove the one grammar.
pub fn one_reply()
    ensures { OneReply }
{
    one_core();
    one_check();
    one_parse();
    one_edits();
    one_path();
    one_script();
    proves_is_no_fault();
    fault_is_one();
    load_once();
    covered_has_no_gap();
    one_gap();
    one_explained();
    one_cleared();
    one_followed();
    one_trial();
}
