// Windows by their start, in a caller's memory.
ghost use Rattle.std.specs.Prelude.{◌≡◌, Some};
ghost use Rattle.table_uses.specs.Orders.{starts_before, later};
ghost use Rattle.std.proofs.Common.{rules};

use table::order::Ordered;
use table::table::{put, show};

// A stretch of time on the wire.
#[derive(Clone, Copy, PartialEq, Eq, Debug)]
pub struct Window {
    pub start: u64,
    pub end: u64,
}

impl Ordered for Window {
    ghost before = { starts_before };

    ghost asym = { Prim.search rules };

    ghost behind = { Prim.search rules };

    fn precedes(&self, other: &Window) -> bool {
        self.start < other.start
    }
}

// The later of two windows; of two with one start the one that was put last. It shows the calls over lent memory.
pub fn later_of(a: Window, b: Window) -> Option<Window>
    ensures { result ≡ Some (later a b) }
{
    let mut memory = [a; 2];
    let len = put(&mut memory, 0, a).ok()?;
    let len = put(&mut memory, len, b).ok()?;
    show(&memory, len, 1)
}
