// Which packets of a cycle a list sends too late.
ghost use Rattle.std.specs.Prelude.{◌≡◌, ℕ, ◌<◌, ◌≤◌, MatchOption};
ghost use Rattle.std.specs.Iterator.{IsFinite};
ghost use Rattle.sheet.specs.Contents.{traffic_of};
ghost use Rattle.sending.specs.InTime.{InTime};
ghost use Rattle.list_check.specs.Queued.{QueueComes};
ghost use Rattle.list_check.specs.Lateness.{KnownLate, Looked};
ghost use Rattle.list_check.specs.Verdict.{LateAt};

use crate::named::named;
use crate::rules::Lawful;
use crate::service::{Service, due_first, is_past};
use coming::coming::Packets;
use traffic::packet::Job;

// Looks through the packets of a queue for late ones: the one that is due first, of these and of the one known before.
fn look_at<I: Iterator<Item = Job> + Drop>(
    lawful: Lawful,
    packets: I,
    worst: Option<Job>,
) -> Option<Job>
    requires can { I.can_next packets }
    requires ends { IsFinite (I.remaining packets) }
    requires queued { (q : ℕ) × QueueComes I.next_gives packets (traffic_of lawful.sheet.now) lawful.list.now q }
    requires known { KnownLate (traffic_of lawful.sheet.now) lawful.list.now worst }
    ensures { (q : ℕ) → QueueComes I.next_gives packets (traffic_of lawful.entry.sheet.now) lawful.entry.list.now q → Looked (traffic_of lawful.entry.sheet.now) lawful.entry.list.now q worst result }
{
    let mut service = Some(Service::start(lawful.list));
    let mut late = worst;
    for x in packets {
        if is_past(late, &x) {
            return late;
        }
        service = service.and_then(|s| s.serve(&x));
        if service.is_none() {
            late = Some(due_first(late, x));
        }
    }
    late
}

// The packet of the cycle that is not in time, and of several the one that is due first.
pub(crate) fn first_late(lawful: Lawful) -> Option<Job>
    ensures { MatchOption result (InTime (traffic_of lawful.entry.sheet.now) lawful.entry.list.now) (λ x. LateAt (traffic_of lawful.entry.sheet.now) lawful.entry.list.now x.flow x.number) }
{
    let optional = named(lawful);
    let mut late = look_at(lawful, optional.records().iter().copied(), None);
    for queue in 1..8 {
        late = look_at(lawful, Packets::of(lawful.sheet, queue), late);
    }
    late
}
