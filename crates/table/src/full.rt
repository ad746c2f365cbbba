// The refusal of a full table.
ghost use Rattle.std.specs.Prelude.{◌≡◌};
ghost use Rattle.table.specs.Refused.{full_refusal};

use refusal::{Reason, Refusal};

// A record was not put, since every place is taken.
#[derive(Clone, Copy, PartialEq, Eq, Debug)]
pub struct Full;

// Refusal 19, with no place and no number.
impl From<Full> for Refusal {
    ghost from_gives = { λ full r. r ≡ full_refusal full };

    fn from(_full: Full) -> Refusal {
        Refusal::from(Reason::FullTable)
    }
}
