ghost use Rattle.std.specs.Prelude.{◌≡◌, ◌<◌, ◌^◌, ◌-◌, None, Some};

use std::marker::Model;

/// A place below 2^32 - 1, or none, in 32 bits.
#[derive(Clone, Copy)]
pub(crate) struct Link {
    /// One more than the place, and 0 for none.
    code: u32,
}

impl Model for Link {
    ghost use Rattle.std.specs.Prelude.{ℕ, Option};
    ghost use Rattle.std.specs.Coded.{coded_option, coded_ℕ};

    ghost Value = { Option ℕ };

    ghost coded = { coded_option coded_ℕ };

    ghost use Rattle.ipg_memo.specs.Linked.{place_in, link_to, link_back};

    ghost view = { λ a. place_in a };

    ghost inverse = { λ p. link_to p };

    ghost inverse_ok = { λ a _. link_back a };
}

impl Link {
    /// No place.
    pub(crate) fn none() -> Link
        ensures { result ≡ None }
    {
        Link { code: 0 }
    }

    pub(crate) fn to(place: usize) -> Link
        requires { place < 2 ^ 32 - 1 }
        ensures { result ≡ Some place }
    {
        Link {
            code: place as u32 + 1,
        }
    }

    pub(crate) fn place(self) -> Option<usize>
        ensures { result ≡ self }
    {
        if self.code == 0 {
            None
        } else {
            Some(self.code as usize - 1)
        }
    }
}
