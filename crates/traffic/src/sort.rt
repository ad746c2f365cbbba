// The two sorts of packets, and where the next packet of a sort is.
ghost use Rattle.std.specs.Prelude.{◌^◌, ◌≤◌, MatchOption};
ghost use Rattle.traffic.specs.Sorts.{of_sort, FirstFrom, NoneFrom};

use crate::flow::Flow;
use crate::pattern::pattern;

// Mandatory packets, or optional ones.
#[derive(Clone, Copy, PartialEq, Eq, Debug)]
pub enum Sort {
    Mandatory,
    Optional,
}

impl Flow {
    // The number of the flow's first packet of the sort from packet `from` on, by its place in the pattern; none where the
    // flow has no packet of the sort. That a number fits is asked here and in the calls above, in `arrivals` and `coming`: a type
    // for such a number would be made and taken apart at each.
    pub fn next_of_sort(&self, sort: Sort, from: u64) -> Option<u64>
        requires { (1 ≤ from) × (from ≤ 2 ^ 63) }
        ensures { MatchOption result (NoneFrom (of_sort sort self.now) from) (FirstFrom (of_sort sort self.now) from) }
    {
        let (w, h) = pattern(self.miss, self.among);
        let (optional, mandatory) = (w as u64, h as u64);
        let place = (from - 1) % (optional + mandatory);
        match sort {
            Sort::Mandatory if place < mandatory => Some(from),
            Sort::Mandatory if mandatory > 0 => Some(from + (optional + mandatory - place)),
            Sort::Optional if place >= mandatory => Some(from),
            Sort::Optional if optional > 0 => Some(from + (mandatory - place)),
            _ => None,
        }
    }
}
