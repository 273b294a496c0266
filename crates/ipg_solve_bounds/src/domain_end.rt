/// A side of a variable's domain.
#[derive(Clone, Copy)]
pub enum EndSide {
    Low,
    High,
}

/// An end of a variable's domain.
#[derive(Clone, Copy)]
pub struct DomainEnd {
    pub var: usize,
    pub side: EndSide,
}

impl DomainEnd {
    /// The lower end.
    pub fn low(var: usize) -> DomainEnd {
        DomainEnd {
            var,
            side: EndSide::Low,
        }
    }

    /// The upper end.
    pub fn high(var: usize) -> DomainEnd {
        DomainEnd {
            var,
            side: EndSide::High,
        }
    }

    /// The end at which a multiple of the variable is least.
    pub fn least(term: (u64, i64)) -> DomainEnd {
        let var = term.0 as usize;
        if term.1 < 0 {
            DomainEnd::high(var)
        } else {
            DomainEnd::low(var)
        }
    }

    /// The end at which a multiple of the variable is greatest, which an atom bounds.
    pub fn greatest(term: (u64, i64)) -> DomainEnd {
        let var = term.0 as usize;
        if term.1 < 0 {
            DomainEnd::low(var)
        } else {
            DomainEnd::high(var)
        }
    }
}
