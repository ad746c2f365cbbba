// An arrival source.
ghost use Rattle.std.specs.Prelude.{◌≡◌, List};
ghost use Rattle.traffic.specs.declared.packet.Packet.{Packet};
ghost use Rattle.arrivals.specs.Sources.{first, rest};

use traffic::packet::Packet;

// Hands packets over one by one.
pub trait ArrivalSource {
    // the packets still to come
    ghost arrivals: { Self → List Packet };

    // The packet that comes next, none where no more come; asking changes nothing.
    fn head(&self) -> Option<Packet>
        ensures { result ≡ first (arrivals self.now) };

    // Takes the packet that comes next; where no more come, answers none and changes nothing.
    fn take(&mut self) -> Option<Packet>
        ensures value { result ≡ first (arrivals self.old) }
        ensures after { arrivals self.new ≡ rest (arrivals self.old) };
}
