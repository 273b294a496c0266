//! Laws of the notes of a cycle, each the contract of a function that does nothing.

ghost use Rattle.ipg_app_values.specs.Laws.{NotedOnce, NotedSomehow};

use ipg_solve_values::laws::tells_once;

/// Of a cycle one thing is noted.
pub fn noted_once()
    ensures { NotedOnce }
{
    tells_once();
}

/// It can't be that nothing is.
pub fn noted_somehow()
    ensures { NotedSomehow }
{}
