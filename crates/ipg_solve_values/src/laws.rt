//! Laws of values that a variable has in all solutions, each the contract of a function that does nothing.

ghost use Rattle.ipg_solve_values.specs.Laws.{TellsOnce};

/// Of a variable one thing is told: its value in every solution, or that it has none.
pub fn tells_once()
    ensures { TellsOnce }
{}
