// What an entry may do behind the entries in front of it. The sheet goes along with the entry: the front is of the list alone.
ghost use Rattle.std.specs.Prelude.{◌≡◌, ◌≤◌, true, List, [], ◌∷◌, ◌++◌, length};
ghost use Rattle.cycle.specs.Cycle.{packets_in};
ghost use Rattle.gates.specs.declared.entry.Entry.{Entry};
ghost use Rattle.gates.specs.Entries.{names};
ghost use Rattle.sheet.specs.Contents.{traffic_of};
ghost use Rattle.sending.specs.Rules.{well_gated, optional_there, well_named, entry_broken};
ghost use Rattle.list_check.specs.Faults.{outcome_of};
ghost use Rattle.list_check.specs.Named.{known};

use crate::fault::CheckFault;
use gates::entry::Entry;
use gates::naming::is_named;
use sheet::sheet::Sheet;
use traffic::flow::Flow;
use traffic::pattern::is_mandatory;

// Does the entry take some time, and open at most one gate?
fn is_well_gated(entry: &Entry) -> bool
    ensures { result ≡ well_gated entry.now }
{
    entry.interval >= 1 && (entry.gates == 0 || entry.gates.is_power_of_two())
}

// How many packets of the flow arrive in a cycle. `number_in_cycle` begins so, and answers something else.
fn packets_in(cycle: u64, flow: &Flow) -> u64
    ensures { result ≡ packets_in cycle flow.now }
{
    cycle.checked_div(flow.period as u64).unwrap_or(0)
}

// Is this number of the flow in the cycle an optional packet of the sheet?
fn is_optional(sheet: &Sheet, flow: u8, number: u64) -> bool
    ensures { result ≡ optional_there (traffic_of sheet.now) flow number }
{
    sheet.flow(flow).is_some_and(|f| {
        number >= 1 && number <= packets_in(sheet.cycle(), &f) && !is_mandatory(&f, number)
    })
}

// The greatest number named so far of each flow: an array by flow number, since memory is fixed and each is found at once.
pub(crate) type Latest = [u32; 256];

// An entry is the latest one of its flow.
pub(crate) fn note(latest: &mut Latest, entry: &Entry)
    ensures { (front : List Entry) → known latest.old front ≡ true → known latest.new (front ++ entry.now ∷ []) ≡ true }
{
    let flow = entry.flow as usize;
    latest[flow] = entry.number.max(latest[flow]);
}

// The entries in front of one, and the greatest number that they name of each flow.
#[derive(Clone, Copy)]
pub(crate) struct Front<'a> {
    entries: &'a [Entry],
    latest: &'a Latest,
    ghost few: { length entries.now ≤ 1024 },
    ghost known: { known latest.now entries.now ≡ true },
}

impl<'a> Front<'a> {
    // These entries with these numbers.
    pub(crate) fn new(entries: &'a [Entry], latest: &'a Latest) -> Front<'a>
        requires few { length entries.now ≤ 1024 }
        requires known { known latest.now entries.now ≡ true }
        ensures { result.entries.now ≡ entries.now }
    {
        Front { entries, latest }
    }

    // Is the packet named? Numbers that rise are told without a look at the entries.
    fn is_repeated(&self, flow: u8, number: u32) -> bool
        ensures { result ≡ names self.now.entries.now flow number }
    {
        number <= self.latest[flow as usize] && is_named(self.entries, flow, number as u64)
    }

    // Does an entry name nothing, or an optional packet of the cycle that none of these names, with gate 0 open alone?
    fn is_well_named(&self, sheet: &Sheet, entry: &Entry) -> bool
        ensures { result ≡ well_named (traffic_of sheet.now) self.now.entries.now entry.now }
    {
        if entry.flow == 0 && entry.number == 0 {
            return true;
        }
        entry.gates == 1
            && is_optional(sheet, entry.flow, entry.number as u64)
            && !self.is_repeated(entry.flow, entry.number)
    }

    // The rule that an entry behind these breaks first.
    pub(crate) fn check(&self, sheet: &Sheet, entry: &Entry) -> Result<(), CheckFault>
        ensures { result ≡ outcome_of (entry_broken (traffic_of sheet.now) self.now.entries.now entry.now) }
    {
        let place = self.entries.len() as u32 + 1;
        if !is_well_gated(entry) {
            return Err(CheckFault::Gates(place));
        }
        if !self.is_well_named(sheet, entry) {
            return Err(CheckFault::Name(place));
        }
        Ok(())
    }
}
