// Windows: packets on the wire.
ghost use Rattle.std.specs.Prelude.{◌≡◌, ◌^◌, ◌<◌};
ghost use Rattle.search.specs.Windows.{starts_before, end};
ghost use Rattle.std.proofs.Common.{rules};

use table::order::Ordered;
use traffic::packet::Job;

// A packet on the wire from an instant on.
#[derive(Clone, Copy, PartialEq, Eq, Debug, Default)]
pub struct Window {
    pub start: u64,
    pub packet: Job,
}

impl Window {
    // The first instant after the window.
    pub fn end(&self) -> u64
        requires { end self.now < 2 ^ 64 }
        ensures { result ≡ end self.now }
    {
        self.start + self.packet.wire as u64
    }
}

// Windows stand in the order of their starts.
impl Ordered for Window {
    ghost before = { starts_before };

    ghost asym = { Prim.search rules };

    ghost behind = { Prim.search rules };

    fn precedes(&self, other: &Window) -> bool {
        self.start < other.start
    }
}
