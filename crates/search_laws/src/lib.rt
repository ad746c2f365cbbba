// What holds of every list that a search draws.
#![tactic(auto)]

ghost use Rattle.std.specs.Prelude.{take, MatchResult};
ghost use Rattle.search.specs.Memory.{Searched};
ghost use Rattle.search_laws.specs.Sheets.{Lawful, Rightly};
ghost use Rattle.search_laws.specs.Laws.{WindowsFit, RulesHold, LeastRoom, NeverIdle, PlanLawful, PlanOnce, LateRightly, TooLongRightly};

use gates::entry::Entry;
use search::fault::SearchFault;
use search::search::search;
use search::serving::ServingOrder;
use search::window::Window;
use sheet::sheet::Sheet;

// A search, with the laws of what it draws and of why it refuses.
pub fn lawful_search<O: ServingOrder>(
    sheet: &Sheet,
    order: &O,
    list: &mut [Entry],
    windows: &mut [Window],
) -> Result<usize, SearchFault>
    ensures searched { Searched (O.before order.now) sheet.now list.old windows.old result list.new windows.new }
    ensures law { MatchResult result (λ n. Lawful (O.before order.now) sheet.now (take n list.new)) (Rightly (O.before order.now) sheet.now) }
{
    search(sheet, order, list, windows)
}

// The windows are disjoint and in time, each mandatory packet has one, and each queue stands in its order.
pub fn windows_fit()
    ensures { WindowsFit }
{}

// The drawn list keeps the rules of a list.
pub fn rules_hold()
    ensures { RulesHold }
{}

// A trial starts at the least instant at which it overlaps no window.
pub fn least_room()
    ensures { LeastRoom }
{}

// The wire is never idle while a mandatory packet waits.
pub fn never_idle()
    ensures { NeverIdle }
{}

// The windows obey the law of the walk and of the trials.
pub fn plan_lawful()
    ensures { PlanLawful }
{}

// That law leaves one list of windows.
pub fn plan_once()
    ensures { PlanOnce }
{}

// A search that finds a packet late is right.
pub fn late_rightly()
    ensures { LateRightly }
{}

// A search that finds the list too long is right.
pub fn too_long_rightly()
    ensures { TooLongRightly }
{}
