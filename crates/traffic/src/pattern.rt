// Which packets of a flow are mandatory.
ghost use Rattle.std.specs.Prelude.{◌≡◌, ℕ, ◌+◌, ◌<◌, ◌≤◌};
ghost use Rattle.traffic.specs.Pattern.{pattern, mandatory_at, optionals};

use crate::flow::Flow;

// The pattern (w, h) of a flow that may miss some packets among so many in a row:
// after h mandatory packets come w optional ones. Callers add the two where they want the whole pattern: all but the time of a
// pattern want one of them, too.
pub fn pattern(miss: u8, among: u8) -> (u8, u8)
    ensures value { result ≡ pattern miss among }
    ensures length { (0 < result.0 + result.1) × (result.0 + result.1 < 512) }
    ensures few { miss < among → among ≤ 20 → (j : ℕ) → 1 ≤ j → optionals miss among j among ≤ miss }
{
    if miss == 0 {
        return (0, 1);
    }
    let kept = among.saturating_sub(miss);
    if kept == 0 {
        return (1, 0);
    }
    let h = (kept as u16 + (miss as u16 - 1)) / miss as u16;
    ((miss / kept).max(1), h as u8)
}

// Is packet `number` of the flow, counted from 1, mandatory?
pub fn is_mandatory(flow: &Flow, number: u64) -> bool
    ensures { result ≡ mandatory_at flow.now number }
{
    let (w, h) = pattern(flow.miss, flow.among);
    let place = number.saturating_sub(1) % (w as u64 + h as u64);
    place + 1 <= h as u64
}
