//! Laws of names, each the contract of a function that does nothing.

ghost use Rattle.ipg_names.specs.Laws.{FormedIsReadable, FirstIsTold, HeadsStand, FaultsStand, FirstIsRefused, FaultlessIsFormed};

use ipg_names_scope::laws::roster_is_whole;

/// A well formed grammar of at most 2^20 tokens, and so each that is read, meets the conditions of `resolve`.
pub fn formed_is_readable()
    ensures { FormedIsReadable }
{}

/// Of any list of faults the one of least number is told, among equal ones the one of least place.
pub fn first_is_told()
    ensures { FirstIsTold }
{}

/// G6 stands exactly at the heads whose name is taken.
pub fn heads_stand()
    ensures { HeadsStand }
{}

/// Where no head's name is taken, the faults of a text are exactly those that hold of their places.
pub fn faults_stand()
    ensures { FaultsStand }
{}

/// The first fault that holds of a place is told, and none exactly where none holds anywhere.
pub fn first_is_refused()
    ensures { FirstIsRefused }
{}

/// What the names of a readable text without a fault stand for is well formed.
pub fn faultless_is_formed()
    ensures { FaultlessIsFormed }
{
    roster_is_whole();
}
