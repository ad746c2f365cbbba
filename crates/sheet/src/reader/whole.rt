// All lines of a sheet's text.
ghost use Rattle.std.specs.Prelude.{◌≡◌, ◌≤◌, ◌⊎◌, [], length, Ok, Err, MatchResult};
ghost use Rattle.sheet.specs.declared.faults.SheetFault.TheVariants.{Memory};
ghost use Rattle.sheet.specs.Reading.{flows_from, lines_of, in_sheet};
ghost use Rattle.sheet.specs.Readers.{cursor};

use super::Reader;
use crate::faults::{LineFault, SheetFault};
use traffic::flow::Flow;
use traffic::rate::Rate;

impl<'a> Reader<'a> {
    // The flows up to the line that counts them, into an empty vector, here and in the calls above: it is the sheet's own, whose
    // flows were forgotten and whose memory stays.
    fn flows(&mut self, rate: Rate, flows: &mut Vec<Flow>) -> Result<(), SheetFault>
        requires { flows.old.items ≡ [] }
        ensures { MatchResult result (λ _. flows_from 64 rate [] (cursor self.old) ≡ Ok (flows.new.items, cursor self.new)) (λ e. (e ≡ Memory) ⊎ (in_sheet (flows_from 64 rate [] (cursor self.old)) ≡ Err e)) }
    {
        while self.heading(flows.len())? {
            let flow = self.flow(rate)?;
            flows.push(flow)?;
        }
        Ok(())
    }
}

// The rate and, into an empty vector, the flows that the lines of a text say.
pub(crate) fn read_lines(text: &[u8], flows: &mut Vec<Flow>) -> Result<Rate, SheetFault>
    requires short { length text.now ≤ 61440 }
    requires none { flows.old.items ≡ [] }
    ensures { MatchResult result (λ v. lines_of text.now ≡ Ok (record { rate = v; flows = flows.new.items })) (λ e. (e ≡ Memory) ⊎ (in_sheet (lines_of text.now) ≡ Err e)) }
{
    let mut reader = Reader {
        rest: text,
        line: 1,
    };
    let rate = reader.rate()?;
    reader.flows(rate, flows)?;
    if !reader.rest.is_empty() {
        return Err(SheetFault::Line(LineFault::Form(reader.line)));
    }
    Ok(rate)
}
