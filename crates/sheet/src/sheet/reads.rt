// The reading of a sheet.
ghost use Rattle.std.specs.Prelude.{◌≡◌, ◌⊎◌, [], Ok, Err, vec_len, MatchResult};
ghost use Rattle.sheet.specs.declared.faults.SheetFault.TheVariants.{Memory};
ghost use Rattle.cycle.specs.Cycle.{cycle_of};
ghost use Rattle.sheet.specs.Contents.{traffic_of, no_traffic};
ghost use Rattle.sheet.specs.Reading.{sheet_of};
ghost use Rattle.sheet.specs.Spelling.{Kept, sheet_text, NoSheet, OneSheet};

use super::Sheet;
use crate::faults::SheetFault;
use crate::reader::whole::read_lines;
use cycle::cycle::{LONGEST_CYCLE, cycle_within};
use std::alloc::Global;
use traffic::flow::Flow;
use traffic::rate::Rate;

// The longest text in bytes.
const LONGEST_TEXT: usize = 61_440;

// The rate and the cycle and, into an empty vector, the flows that a text says.
fn read_text(text: &[u8], flows: &mut Vec<Flow>) -> Result<(Rate, u64), SheetFault>
    requires { flows.old.items ≡ [] }
    ensures { MatchResult result (λ v. (sheet_of text.now ≡ Ok (record { rate = v.0; flows = flows.new.items })) × (v.1 ≡ cycle_of flows.new.items)) (λ e. (e ≡ Memory) ⊎ (sheet_of text.now ≡ Err e)) }
{
    if text.len() > LONGEST_TEXT {
        return Err(SheetFault::Size);
    }
    let rate = read_lines(text, flows)?;
    let cycle = cycle_within(flows.as_slice(), LONGEST_CYCLE).ok_or(SheetFault::Cycle)?;
    Ok((rate, cycle))
}

// Takes all flows away. It takes no sheet: flows of a refused text break what a sheet keeps, so no method can be called.
fn forget(flows: &mut Vec<Flow>)
    ensures items { flows.new.items ≡ [] }
    ensures len { vec_len flows.new ≡ 0 }
{
    flows.clear();
}

impl Sheet {
    // A sheet without flows.
    pub fn new(heap: Global) -> Sheet
        ensures { traffic_of result ≡ no_traffic }
    {
        Sheet {
            rate: Rate::Mbit10,
            flows: Vec::new(heap),
            cycle: 1,
        }
    }

    // Takes what it says away.
    fn clear(&mut self)
        ensures { traffic_of self.new ≡ no_traffic }
    {
        forget(&mut self.flows);
        self.rate = Rate::Mbit10;
        self.cycle = 1;
    }

    // Reads a text; refused, it leaves the sheet without flows. A text is read exactly when it is the text of a sheet
    // that keeps all, and no two sheets share a text.
    pub fn read(&mut self, text: &[u8]) -> Result<(), SheetFault>
        ensures cases { MatchResult result (λ _. sheet_of text.now ≡ Ok (traffic_of self.new)) (λ e. (traffic_of self.new ≡ no_traffic) × ((e ≡ Memory) ⊎ (sheet_of text.now ≡ Err e))) }
        ensures exact { MatchResult result (λ _. Kept (traffic_of self.new) × (text.now ≡ sheet_text (traffic_of self.new))) (λ e. (e ≡ Memory) ⊎ NoSheet text.now) }
        ensures distinct { OneSheet }
    {
        self.clear();
        match read_text(text, &mut self.flows) {
            Ok((rate, cycle)) => {
                self.rate = rate;
                self.cycle = cycle;
                Ok(())
            }
            Err(fault) => {
                forget(&mut self.flows);
                Err(fault)
            }
        }
    }
}
