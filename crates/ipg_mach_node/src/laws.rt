//! Laws of items, of results and of stores that grow, each the contract of a function that does nothing.

ghost use Rattle.ipg_mach_node.specs.Laws.{NoItems, OneMore, ItemsStay, ResultsStay, ResultSet, NoneHasRun};
ghost use Rattle.ipg_mach_node.specs.Laws.{GrowsFromBefore, BeforeBefore, GrowsThrough, GrowsByList, GrowsByNode};

use ipg_mach_nodes::laws::kids_stay;

/// No rows hold no items.
pub fn no_items()
    ensures { NoItems }
{}

/// One row more holds one item more.
pub fn one_more()
    ensures { OneMore }
{}

/// Items that stand in a store stand in each that grew out of it.
pub fn items_stay()
    ensures { ItemsStay }
{
    kids_stay();
}

/// So do the results of terms.
pub fn results_stay()
    ensures { ResultsStay }
{
    kids_stay();
}

/// One term more has its result.
pub fn result_set()
    ensures { ResultSet }
{}

/// Before a term has run there are no results.
pub fn none_has_run()
    ensures { NoneHasRun }
{}

/// A store grew out of what it was at a mark.
pub fn grows_from_before()
    ensures { GrowsFromBefore }
{}

/// What was before an earlier mark was so before a later one, too.
pub fn before_before()
    ensures { BeforeBefore }
{}

/// What a store grows by.
pub fn grows_on()
    ensures through { GrowsThrough }
    ensures list { GrowsByList }
    ensures node { GrowsByNode }
{}
