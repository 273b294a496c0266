//! Laws, each the contract of a function that calls only the laws it stands on.

ghost use Rattle.ipg_app_reply_laws.specs.Headline.{Headline};
ghost use Rattle.ipg_app_reply_laws.specs.Replies.{SomeReply};

use ipg_app::laws::{one_check, one_core, one_parse};
use ipg_app_values::laws::noted_somehow;
use ipg_complete::laws::completed_is_formed;
use ipg_core::laws::{holds_its_bytes, lies_within};
use ipg_cover_leaves::laws::{all_put_comes_back, leaves_agree};
use ipg_cover_refute_laws::laws::gaps_are_refuted;
use ipg_facts_laws::laws::{
    conditions_are_parts, edges_are_inside, gaps_are_bounded, joint_is_part,
};
use ipg_mach_count_laws::laws::{
    all_where_none_kept, counts_over, keys_are_known, none_where_first_kept,
};
use ipg_mach_moves::laws::ends_as_meant;
use ipg_names::laws::faultless_is_formed;
use ipg_names_text::laws::read_is_readable;
use ipg_order::laws::good_as_ordered;
use ipg_proof::laws::{accepts_is_total, text_is_of_one};
use ipg_store::laws::held_is_total;

/// The sentence: to `parse`, of an input of at most 2^30 bytes, the tree of the meaning is said, `no parse`, `range` or a refusal, each
/// exactly where its condition holds; and where no fault comes from outside a run writes it whole, or memory was wanting.
pub fn headline()
    ensures { Headline }
{
    one_core();
    one_check();
    one_parse();
}

/// To words that ask neither for a certificate nor for a table file it can't be that nothing is said, whatever is told of files, where
/// what they are told to hold are bytes.
pub fn some_reply()
    ensures { SomeReply }
{
    read_is_readable();
    faultless_is_formed();
    completed_is_formed();
    good_as_ordered();
    conditions_are_parts();
    joint_is_part();
    noted_somehow();
    accepts_is_total();
    held_is_total();
    text_is_of_one();
    ends_as_meant();
    keys_are_known();
    counts_over();
    none_where_first_kept();
    all_where_none_kept();
    holds_its_bytes();
    lies_within();
    leaves_agree();
    all_put_comes_back();
    gaps_are_refuted();
    gaps_are_bounded();
    edges_are_inside();
}
