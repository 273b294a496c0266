ghost use Rattle.ipg_num.specs.FloorLaw.{DividesByFloor};

/// The law of the quotient and the remainder, for every dividend and every divisor above 0.
pub fn divides_by_floor()
    ensures { DividesByFloor }
{}
