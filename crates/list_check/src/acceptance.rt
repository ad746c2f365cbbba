// The acceptance of a list for a sheet.
ghost use Rattle.std.specs.Prelude.{◌≡◌, MatchResult};
ghost use Rattle.sheet.specs.Contents.{traffic_of};
ghost use Rattle.sending.specs.InTime.{Accepted};
ghost use Rattle.list_check.specs.Verdict.{HasFlows, Refused};

use crate::fault::CheckFault;
use crate::queues::first_late;
use crate::rules::Lawful;
use gates::entry::Entry;
use sheet::sheet::Sheet;

// A list that was checked for a sheet, and found good. Only the check makes one.
#[derive(Drop)]
pub struct Acceptance<'a> {
    sheet: &'a Sheet,
    list: &'a [Entry],
}

// Checks a list for a sheet: accepted exactly when the sheet has flows and the list keeps the rules and sends every packet in time.
pub fn check<'a>(sheet: &'a Sheet, list: &'a [Entry]) -> Result<Acceptance<'a>, CheckFault>
    ensures { MatchResult result (λ a. HasFlows (traffic_of sheet.now) × Accepted (traffic_of sheet.now) list.now × (a.sheet ≡ sheet.entry) × (a.list ≡ list.entry)) (Refused (traffic_of sheet.now) list.now) }
{
    if sheet.flows().is_empty() {
        return Err(CheckFault::EmptySheet);
    }
    let lawful = Lawful::of(sheet, list)?;
    if let Some(x) = first_late(lawful) {
        return Err(CheckFault::Late(x.flow, x.number));
    }
    Ok(Acceptance { sheet, list })
}
