ghost use Rattle.std.specs.Prelude.{◌≡◌, ◌<◌, Some, None};
ghost use Rattle.tb_pages.specs.declared.pages.TheConstants.{PAGES};

use std::marker::Model;

/// The number of a page, or none. It takes 4 bytes, where an `Option` takes 8, so that an entry of a
/// key book takes 12.
#[derive(Clone, Copy, Debug)]
pub struct PageNumber {
    // One more than the number, and 0 for none.
    above: u32,
}

impl Model for PageNumber {
    ghost use Rattle.std.specs.Prelude.{ℕ, Option};

    ghost Value = { Option ℕ };

    ghost use Rattle.tb_pages.specs.PageNumbers.{number_below, one_above, one_above_below};

    ghost view = { λ p. number_below p.above };

    ghost inverse = { λ number. record { above = one_above number } };

    ghost inverse_ok = { λ p _. one_above_below p };
}

impl PageNumber {
    /// The number of this page.
    pub fn of(page: u32) -> PageNumber
        requires { page < PAGES }
        ensures { result ≡ Some page }
    {
        PageNumber { above: page + 1 }
    }

    /// No page's number.
    pub fn none() -> PageNumber
        ensures { result ≡ None }
    {
        PageNumber { above: 0 }
    }

    /// The number, if there is one.
    pub fn get(self) -> Option<u32>
        ensures { result ≡ self }
    {
        if self.above == 0 {
            return None;
        }
        Some(self.above - 1)
    }
}
