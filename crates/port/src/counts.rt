// What a port counts.
ghost use Rattle.std.specs.Prelude.{◌≡◌, Bool};
ghost use Rattle.sending.specs.Calls.{no_counts, one_foreign, one_unadmitted, one_start};
ghost use Rattle.port.specs.Counting.{counts_of};

// The mandatory and the optional starts, the foreign and the unadmitted packets so far; each stops at 2^64 - 1.
#[derive(Clone, Copy, PartialEq, Eq, Debug, Default)]
pub struct Counts {
    pub mandatory: u64,
    pub optional: u64,
    pub foreign: u64,
    pub unadmitted: u64,
}

impl Counts {
    // Nothing yet.
    pub fn none() -> Counts
        ensures { counts_of result ≡ no_counts }
    {
        Counts::default()
    }

    // One more foreign packet. A count as a parameter would be an enum and a match: this and the next stay two functions.
    pub fn add_foreign(&mut self)
        ensures { counts_of self.new ≡ one_foreign (counts_of self.old) }
    {
        self.foreign = self.foreign.saturating_add(1);
    }

    // One more unadmitted packet.
    pub fn add_unadmitted(&mut self)
        ensures { counts_of self.new ≡ one_unadmitted (counts_of self.old) }
    {
        self.unadmitted = self.unadmitted.saturating_add(1);
    }

    // One more start.
    pub fn add_start(&mut self, mandatory: bool)
        ensures { counts_of self.new ≡ one_start mandatory (counts_of self.old) }
    {
        if mandatory {
            self.mandatory = self.mandatory.saturating_add(1);
        } else {
            self.optional = self.optional.saturating_add(1);
        }
    }
}
