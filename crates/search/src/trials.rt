// The optional packets: each is tried at its one start. That a packet's numbers fit is asked here and in the walk, where its window
// is made: a type for such a packet would be made of each one for this use alone.
ghost use Rattle.std.specs.Prelude.{◌≡◌, ℕ, ◌+◌, ◌<◌, ◌≤◌, max, length, MatchOption, nat_le};
ghost use Rattle.std.specs.List.{All, AllByRecursion, prefix_len};
ghost use Rattle.search.specs.Windows.{Fits, end, latest};
ghost use Rattle.search.specs.Search.{admitted, admitted_end, tried};
ghost use Rattle.search.specs.Packets.{cycle_packets};
ghost use Rattle.search.specs.Schedules.{FitsJob};
ghost use Rattle.search.specs.Trials.{Passed, HasRoom, NoRoom, Tried};

use crate::schedule::Schedule;
use crate::window::Window;
use coming::coming::Packets;
use sheet::sheet::Sheet;
use traffic::packet::Job;

// Where a packet may be sent: from an instant on, in front of the window at a place.
#[derive(Clone, Copy)]
struct Room {
    start: u64,
    place: usize,
}

// How far the trials have come: the end of the last admitted window, and how many windows end by the least start of a trial.
#[derive(Clone, Copy)]
struct Trials {
    last: u64,
    passed: usize,
}

// How many windows in a row end by the instant `low`.
fn ended(windows: &[Window], low: u64) -> usize
    requires { All (λ w. end w ≤ latest) windows.now }
    ensures { result ≡ prefix_len (λ w. nat_le (end w) low) windows.now }
{
    windows.iter().take_while(|w| w.end() <= low).count()
}

// How many windows end by the instant `low`, where the first `from` are known to. This and `room_for` take the schedule's windows
// as a slice, since they read no more of it.
fn windows_passed(windows: &[Window], from: usize, low: u64) -> usize
    requires fit { AllByRecursion Fits windows.now }
    requires passed { Passed low from windows.now }
    ensures { Passed low result windows.now }
{
    from + ended(&windows[from..], low)
}

// The least start from `low` on at which the packet overlaps no window, unless it would be late.
fn room_for(windows: &[Window], from: usize, low: u64, job: &Job) -> Option<Room>
    requires fit { AllByRecursion Fits windows.now × FitsJob job.now × (low ≤ latest) }
    requires passed { Passed low from windows.now }
    ensures { MatchOption result (NoRoom low from job.now windows.now) (HasRoom low from job.now windows.now) }
{
    let wire = job.wire as u64;
    // The place goes along with the start: it is wanted behind the loop, where `enumerate` has none.
    let mut start = low;
    let mut place = from;
    for w in &windows[from..] {
        if start + wire <= w.start || start + wire > job.deadline {
            break;
        }
        start = start.max(w.end());
        place += 1;
    }
    if start + wire > job.deadline {
        return None;
    }
    Some(Room { start, place })
}

// Gives a packet the window with the least start from `low` on, and answers its end. None, with nothing changed,
// where the packet would be late or the list gets too long.
fn admit_packet(schedule: &mut Schedule, passed: usize, low: u64, job: Job) -> Option<u64>
    requires low { low ≡ max job.arrival (admitted_end schedule.old.windows) }
    requires passed { Passed low passed schedule.old.windows }
    requires fits { FitsJob job × (job.queue ≡ 0) × (low ≤ latest) }
    ensures result { MatchOption result (schedule.new ≡ schedule.old) (λ last. Tried job.arrival schedule.new.windows (record { last = last; passed = passed })) }
    ensures tried { (schedule.new.windows ≡ tried schedule.old.long job schedule.old.windows) × (schedule.new.long ≡ schedule.old.long) }
{
    let room = room_for(schedule.windows(), passed, low, &job)?;
    let w = Window {
        start: room.start,
        packet: job,
    };
    // Not `ok()?`: tried, and through it the proof did not get at what `insert` ensures.
    match schedule.insert(room.place, w) {
        Ok(()) => Some(w.end()),
        Err(_) => None,
    }
}

// Tries one packet: it is admitted if it ends by its deadline and the list stays within its limit.
fn try_packet(schedule: &mut Schedule, so_far: Trials, job: Job) -> Trials
    requires tried { Tried job.arrival schedule.old.windows so_far }
    requires fits { FitsJob job × (job.queue ≡ 0) × (job.arrival ≤ latest) }
    ensures so_far { Tried job.arrival schedule.new.windows result }
    ensures tried { (schedule.new.windows ≡ tried schedule.old.long job schedule.old.windows) × (schedule.new.long ≡ schedule.old.long) }
{
    let low = job.arrival.max(so_far.last);
    let passed = windows_passed(schedule.windows(), so_far.passed, low);
    let last = admit_packet(schedule, passed, low, job).unwrap_or(so_far.last);
    Trials { last, passed }
}

// Tries the optional packets in the order of their queue.
pub(crate) fn admit(sheet: &Sheet, schedule: &mut Schedule)
    requires { (schedule.old.long ≡ sheet.now.cycle) × (admitted_end schedule.old.windows ≡ 0) }
    ensures { (schedule.new.windows ≡ admitted sheet.now.cycle (cycle_packets sheet.now).optional schedule.old.windows) × (schedule.new.long ≡ sheet.now.cycle) }
{
    let mut trials = Trials { last: 0, passed: 0 };
    for job in Packets::of(sheet, 0) {
        trials = try_packet(schedule, trials, job);
    }
}
