// The mandatory packets that are still to come, and which of them is served next. The packets of queue q stand at place q - 1.
ghost use Rattle.std.specs.Prelude.{◌≡◌, ℕ, ◌<◌, ◌≤◌, length, map, min};
ghost use Rattle.std.specs.List.{slice_get, reduce};
ghost use Rattle.sheet.specs.Contents.{traffic_of};
ghost use Rattle.search.specs.Search.{firsts, arrived, next, without};
ghost use Rattle.search.specs.Queues.{heads, served_first, left_in, AllLeft};

use crate::serving::ServingOrder;
use crate::window::Window;
use coming::coming::Packets;
use sheet::sheet::Sheet;
use traffic::packet::Job;

// All mandatory packets of the cycle, which wait in the queues 1 to 7.
#[inline]
pub(crate) fn mandatory_queues<'a>(sheet: &'a Sheet) -> [Packets<'a>; 7]
    ensures { AllLeft (traffic_of sheet.now) sheet.now.cycle result }
{
    std::array::from_fn(|i| Packets::of(sheet, i as u8 + 1))
}

// The least arrival of a packet still to come.
fn least_arrival(queues: &[Packets]) -> Option<u64>
    ensures { result ≡ reduce min (map (λ p. p.arrival) (heads queues.now)) }
{
    queues
        .iter()
        .filter_map(|queue| queue.first())
        .map(|packet| packet.arrival)
        .min()
}

// Of the first packets of the queues that have arrived by the instant `t`, the one that is served first.
fn served<O: ServingOrder>(queues: &[Packets], order: &O, t: u64) -> Option<Job>
    ensures { result ≡ reduce (served_first (O.before order.now)) (arrived t (heads queues.now)) }
{
    queues
        .iter()
        .filter_map(|queue| queue.first())
        .filter(|packet| packet.arrival <= t)
        .reduce(|best, packet| if order.is_before(&best, &packet) {
            best
        } else {
            packet
        })
}

// The walk's next window: at `t`, or where nothing has arrived by then at the least arrival.
pub(crate) fn next_window<O: ServingOrder>(queues: &[Packets], order: &O, t: u64) -> Option<Window>
    requires { length queues.now ≡ 7 }
    ensures { result ≡ next (O.before order.now) t (firsts (left_in queues.now) 7) }
{
    let least = least_arrival(queues)?;
    let start = t.max(least);
    let packet = served(queues, order, start)?;
    Some(Window { start, packet })
}

// Takes the first packet of a queue.
pub(crate) fn take(queues: &mut [Packets], queue: u8) -> Option<Job>
    requires { (0 < queue) × (queue ≤ 7) × (length queues.old ≡ 7) }
    ensures first { result ≡ slice_get (left_in queues.old queue) 0 }
    ensures others { left_in queues.new ≡ without queue (left_in queues.old) }
{
    queues[queue as usize - 1].next()
}
