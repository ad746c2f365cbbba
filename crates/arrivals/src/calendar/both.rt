// The calendars of both sorts as one source.
ghost use Rattle.std.specs.Prelude.{◌≡◌, Some, MatchResult};
ghost use Rattle.sheet.specs.Contents.{traffic_of};
ghost use Rattle.arrivals.specs.Merges.{merged};
ghost use Rattle.arrivals.specs.Calendars.{calendar_fault, to_come, BothMade};

use super::Calendar;
use crate::faults::CalendarFault;
use crate::merge::Merge;
use sheet::sheet::Sheet;
use traffic::sort::Sort;

// All packets of the sheet for so many cycles, in order: the calendars of its two sorts merged.
pub fn both_sorts<'a>(
    sheet: &'a Sheet,
    cycles: u64,
) -> Result<Merge<Calendar<'a>, Calendar<'a>>, CalendarFault>
    ensures { MatchResult result (λ m. BothMade sheet.now cycles (merged (to_come m.first) (to_come m.second))) (λ e. calendar_fault (traffic_of sheet.now).flows cycles ≡ Some e) }
{
    let mandatory = Calendar::new(sheet, Sort::Mandatory, cycles)?;
    let optional = Calendar::new(sheet, Sort::Optional, cycles)?;
    Ok(Merge::new(mandatory, optional))
}
