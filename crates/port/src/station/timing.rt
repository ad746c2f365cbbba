// Where an instant is in its cycle.
ghost use Rattle.std.specs.Prelude.{◌≡◌, ◌-◌, ◌%◌, ◌<◌, ◌≤◌};
ghost use Rattle.sending.specs.Sheet.{cycle};
ghost use Rattle.port.specs.Station.{sheet_of};

use super::Station;

impl<'a> Station<'a> {
    // The offset of an instant in its cycle.
    pub(crate) fn offset(&self, at: u64) -> u64
        ensures value { result ≡ at % cycle (sheet_of self.now) }
        ensures within { result < cycle (sheet_of self.now) }
    {
        at % self.sheet.cycle()
    }

    // How long the cycle goes on from an instant on.
    pub(crate) fn cycle_left(&self, at: u64) -> u64
        ensures value { result ≡ cycle (sheet_of self.now) - at % cycle (sheet_of self.now) }
        ensures some { (0 < result) × (result ≤ 1000000000) }
    {
        self.sheet.cycle() - self.offset(at)
    }
}
