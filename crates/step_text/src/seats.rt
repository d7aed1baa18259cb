// The clients of a schedule so far.
ghost use Rattle.std.specs.Prelude.{◌≡◌};
ghost use Rattle.step_text.specs.Schedules.{seat_named};

use crate::makes::Made;
use update_core::Datum;

/// A client's number and kind.
#[derive(Clone, Copy, Debug)]
pub struct Seat {
    pub number: u64,
    pub made: Made,
}

/// A client with its name.
#[derive(Drop)]
pub struct Named {
    pub name: Datum,
    pub seat: Seat,
}

/// The client with this name.
pub fn seat_of(clients: &[Named], name: &[u8]) -> Option<Seat>
    ensures { result ≡ seat_named name.now clients.now }
{
    for client in clients {
        if client.name.bytes() == name {
            return Some(client.seat);
        }
    }
    None
}
