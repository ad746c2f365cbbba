// The port.
ghost use Rattle.std.specs.Prelude.{◌≡◌, ◌≤◌};
ghost use Rattle.std.specs.Option.{option_map};
ghost use Rattle.port.specs.Station.{sheet_of};
ghost use Rattle.port.specs.Life.{port_of, Ample};

use crate::station::Station;
use gates::entry::Entry;

pub mod calls;
mod instants;

// A port: the list in force, a pending list, the first undecided instant, and what is at hand, the sheet among it.
// Whatever comes, no queue has to hold more packets than it has places.
#[derive(Drop)]
pub struct Port<'a> {
    list: &'a [Entry],
    pending: Option<&'a [Entry]>,
    clock: u64,
    station: Station<'a>,
    ghost early: { clock ≤ 4000000000000000000 },
    ghost ample: { Ample (sheet_of station) (port_of clock list.now (option_map (λ x. x.now) pending) station) },
}
