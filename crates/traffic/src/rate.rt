// The rate of the line, and how long a frame takes on it.
ghost use Rattle.std.specs.Prelude.{◌≡◌};
ghost use Rattle.traffic.specs.Wire.{octet_time, wire_time};

// The rate of the line, in Mbit/s.
#[derive(Clone, Copy, PartialEq, Eq, Debug)]
pub enum Rate {
    Mbit10,
    Mbit100,
    Mbit1000,
}

// The nanoseconds that one octet takes.
fn octet_time(rate: Rate) -> u32
    ensures { result ≡ octet_time rate }
{
    match rate {
        Rate::Mbit10 => 800,
        Rate::Mbit100 => 80,
        Rate::Mbit1000 => 8,
    }
}

// The nanoseconds that a frame of so many octets takes, preamble, start delimiter and gap included.
pub fn wire_time(rate: Rate, octets: u16) -> u32
    ensures { result ≡ wire_time rate octets }
{
    (octets as u32 + 20) * octet_time(rate)
}
