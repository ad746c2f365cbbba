// What a sheet says, part by part.
ghost use Rattle.std.specs.Prelude.{◌≡◌};
ghost use Rattle.sheet.specs.Contents.{traffic_of};

use super::Sheet;
use traffic::flow::Flow;
use traffic::rate::Rate;

impl Sheet {
    // The rate of the line.
    pub fn rate(&self) -> Rate
        ensures { result ≡ (traffic_of self.now).rate }
    {
        self.rate
    }

    // The flows in their order.
    pub fn flows(&self) -> &[Flow]
        ensures { result.now ≡ (traffic_of self.now).flows }
    {
        self.flows.as_slice()
    }

    // The cycle in nanoseconds: that of its flows, as the sheet's invariant `round` says.
    pub fn cycle(&self) -> u64
        ensures { result ≡ self.now.cycle }
    {
        self.cycle
    }
}
