// A flow of the sheet.

// The most flows of a sheet.
pub const MOST_FLOWS: usize = 64;

// A flow: a packet of `octets` every `period`, to be sent within `deadline`, of which
// at most `miss` among any `among` in a row may be lost.
#[derive(Clone, Copy, PartialEq, Eq, Debug)]
pub struct Flow {
    pub queue: u8,
    pub octets: u16,
    pub period: u32,
    pub deadline: u32,
    pub miss: u8,
    pub among: u8,
    pub weight: u8,
}
