// The entries that a gate list is made of.

// The most entries of a list.
pub const MOST_ENTRIES: usize = 1024;

// One step of a gate list: for `interval` nanoseconds the gates stand as `gates` says, bit q opening queue q.
// `flow` and `number` name an optional packet that the list admits; both are 0 where none is named: by a rule of the project
// an entry is these numbers, and memory for entries that is all zero holds entries.
#[derive(Clone, Copy, PartialEq, Eq, Debug)]
pub struct Entry {
    pub gates: u8,
    pub interval: u32,
    pub flow: u8,
    pub number: u32,
}

impl Entry {
    // The entry of a memory that is all zero. A constant, which a derived `Default` is not.
    pub const ZERO: Entry = Entry {
        gates: 0,
        interval: 0,
        flow: 0,
        number: 0,
    };
}
