// The search.
ghost use Rattle.std.specs.Prelude.{◌≡◌, ℕ, ◌<◌, ◌≤◌, length, replicate, Err, MatchResult};
ghost use Rattle.search.specs.Search.{most_entries, planned_list};
ghost use Rattle.search.specs.Packets.{cycle_packets};
ghost use Rattle.search.specs.Memory.{no_entry, no_window, Planned, Searched};

use crate::fault::SearchFault;
use crate::schedule::Schedule;
use crate::serving::ServingOrder;
use crate::trials::admit;
use crate::walk::walk;
use crate::window::Window;
use gates::entry::{Entry, MOST_ENTRIES};
use sheet::sheet::Sheet;
use traffic::packet::Job;

// A window of zeros. A constant, which a derived `Default` is not: of it the two loops below are filled at once.
const NO_WINDOW: Window = Window {
    start: 0,
    packet: Job {
        flow: 0,
        number: 0,
        queue: 0,
        arrival: 0,
        deadline: 0,
        wire: 0,
        weight: 0,
    },
};

// All entries zero. Not `fill`, here and for windows: it clones each record, and takes many times as long.
fn clear_entries(list: &mut [Entry])
    ensures { list.new ≡ replicate (length list.old) no_entry }
{
    for entry in list.iter_mut() {
        *entry = Entry::ZERO;
    }
}

// All windows zero.
fn clear_windows(windows: &mut [Window])
    ensures { windows.new ≡ replicate (length windows.old) no_window }
{
    for window in windows.iter_mut() {
        *window = NO_WINDOW;
    }
}

// Walk, trials and drawing.
fn planned<O: ServingOrder>(
    sheet: &Sheet,
    order: &O,
    list: &mut [Entry],
    windows: &mut [Window],
) -> Result<usize, SearchFault>
    requires memory { (most_entries ≤ length list.old) × (most_entries ≤ length windows.old) }
    ensures { MatchResult result
        (λ n. Planned (planned_list (O.before order.now) (cycle_packets sheet.now)) n list.old list.new)
        (λ e. planned_list (O.before order.now) (cycle_packets sheet.now) ≡ Err e) }
{
    let mut schedule = Schedule::new(windows, sheet.cycle());
    walk(sheet, order, &mut schedule)?;
    admit(sheet, &mut schedule);
    Ok(schedule.draw(list))
}

// Searches a gate list for the sheet under a serving order, and answers its length. The list is then at the start of the
// list memory, and all else of the lent memory is zero. Both memories are lent by a rule of the project; sheet and order
// stay apart, since a caller has each on its own.
pub fn search<O: ServingOrder>(
    sheet: &Sheet,
    order: &O,
    list: &mut [Entry],
    windows: &mut [Window],
) -> Result<usize, SearchFault>
    ensures { Searched (O.before order.now) sheet.now list.old windows.old result list.new windows.new }
{
    if sheet.flows().is_empty() {
        return Err(SearchFault::EmptySheet);
    }
    if list.len() < MOST_ENTRIES || windows.len() < MOST_ENTRIES {
        return Err(SearchFault::LittleMemory);
    }
    let found = planned(sheet, order, list, windows);
    let drawn = found.unwrap_or(0);
    clear_entries(&mut list[drawn..]);
    clear_windows(windows);
    found
}
