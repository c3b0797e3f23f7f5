// How much room a card needs, by what its netlist says before any check: to clear the largest takes longer than a small card's search.
#![tactic(auto)]

ghost use Rattle.std.specs.Prelude.{◌≡◌, ◌+◌, ◌≤◌};
ghost use Rattle.netlist.specs.Netlist.{inputs_of, gates_of};
ghost use Rattle.changes.specs.Lent.{signals_for};
ghost use Rattle.rooms.specs.Rooms.{room_of, signals_in};

// Room for so many signals.
#[derive(Clone, Copy, Debug, PartialEq, Eq)]
pub enum Room {
    Tiny,
    Small,
    Middle,
    Large,
}

// Room for the signals that a netlist says that it has, as far as an accepted one has so many.
pub fn room_for(netlist: &[u8]) -> Room
    ensures value { result ≡ room_of (inputs_of netlist.now + gates_of netlist.now) }
    ensures enough { signals_for netlist.now ≤ signals_in result }
{
    match netlist::signals_in(netlist) {
        0..=64 => Room::Tiny,
        65..=320 => Room::Small,
        321..=512 => Room::Middle,
        _ => Room::Large,
    }
}
