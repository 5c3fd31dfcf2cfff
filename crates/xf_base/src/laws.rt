//! Laws of the definitions: the function does nothing, and its contract is the law.
ghost use Rattle.std.specs.Prelude.{◌≡◌, ℕ, ℤ, Ok};
ghost use Rattle.xf_base.specs.Date.{date_of, day_text};
ghost use Rattle.xf_base.specs.Fixed.{number_of, fixed_text};
ghost use Rattle.xf_base.specs.Gone.{KeptPass, KeptStand};
ghost use Rattle.xf_base.specs.Schema.{IsCellNumber, IsDay};

/// The text of a day reads back as that day, and that of a number of a cell as that number.
pub fn texts_read_back()
    ensures days { (day : ℤ) → IsDay day → date_of (day_text day) ≡ Ok day }
    ensures numbers { (number : ℤ) (decimals : ℕ) → IsCellNumber number → number_of (fixed_text number decimals) decimals ≡ Ok number }
{}

/// Where places are removed, an item that is kept stands at its new place; what a test marked is kept where it does not
/// pass the test.
pub fn kept_items<Item>()
    ensures places { KeptStand Item }
    ensures tested { KeptPass Item }
{}
