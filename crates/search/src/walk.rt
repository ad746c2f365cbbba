// The walk: each mandatory packet gets its window.
ghost use Rattle.std.specs.Prelude.{◌≡◌, ℕ, ◌≤◌, [], Ok, Err, MatchResult};
ghost use Rattle.search.specs.Windows.{last_end, latest};
ghost use Rattle.search.specs.Search.{placed_next, admitted_end, walked_over};
ghost use Rattle.search.specs.Packets.{cycle_packets};
ghost use Rattle.search.specs.Schedules.{FitsJob};

use crate::fault::SearchFault;
use crate::queues::{mandatory_queues, next_window, take};
use crate::schedule::Schedule;
use crate::serving::ServingOrder;
use crate::window::Window;
use sheet::sheet::Sheet;

// One window more behind the others, unless it is late or makes the list too long.
fn place(schedule: &mut Schedule, w: Window) -> Result<(), SearchFault>
    requires fits { FitsJob w.packet × (w.start ≤ latest) }
    requires behind { last_end 0 schedule.old.windows ≤ w.start }
    ensures { MatchResult result
        (λ _. (placed_next schedule.old.long schedule.old.windows w ≡ Ok schedule.new.windows) × (schedule.new.long ≡ schedule.old.long))
        (λ e. placed_next schedule.old.long schedule.old.windows w ≡ Err e) }
{
    let p = w.packet;
    if w.end() > p.deadline {
        return Err(SearchFault::Late(p.flow, p.number));
    }
    let behind = schedule.windows().len();
    schedule
        .insert(behind, w)
        .map_err(|_| SearchFault::TooLong(p.flow, p.number))
}

// Gives each mandatory packet its window.
pub(crate) fn walk<O: ServingOrder>(
    sheet: &Sheet,
    order: &O,
    schedule: &mut Schedule,
) -> Result<(), SearchFault>
    requires { schedule.old ≡ record { windows = []; long = sheet.now.cycle } }
    ensures { MatchResult result
        (λ _. (walked_over (O.before order.now) sheet.now.cycle 0 (cycle_packets sheet.now).mandatory [] ≡ Ok schedule.new.windows)
        × (schedule.new.long ≡ sheet.now.cycle) × (admitted_end schedule.new.windows ≡ 0))
        (λ e. walked_over (O.before order.now) sheet.now.cycle 0 (cycle_packets sheet.now).mandatory [] ≡ Err e) }
{
    let mut mandatory = mandatory_queues(sheet);
    let queues = &mut mandatory[..];
    let mut t = 0;
    while let Some(w) = next_window(queues, order, t) {
        place(schedule, w)?;
        take(queues, w.packet.queue);
        t = w.end();
    }
    Ok(())
}
