// Full simulation: the waveform class of each signal for a change.
#![tactic(auto)]

ghost use Rattle.std.specs.Prelude.{◌≡◌, ◌+◌, ◌*◌, ◌≤◌, length};
ghost use Rattle.changes.specs.Lent.{signals_for};
ghost use Rattle.simulate.specs.Full.{full_answer, full_buffer};

use refusals::Refusal;
use rooms::Room;

// The classes of a change, in lent room: apart from `full_within`, of which there is one for each size.
fn full_in(
    netlist: &[u8],
    list: &[u8],
    change: usize,
    buffer: &mut [u8],
    rows: &mut [u16],
    hot: &mut [u8],
) -> Result<(), Refusal>
    requires { (signals_for netlist.now ≤ length hot.old) × (9 * length hot.old + 64 ≤ length rows.old) }
    ensures { (result ≡ full_answer netlist.now list.now change buffer.old) × (buffer.new ≡ full_buffer netlist.now list.now change buffer.old) }
{
    let task = changes::decode(netlist, list, rows, true)?;
    if task.changes <= change {
        return Err(Refusal::NoChange);
    }
    let shape = task.shape;
    if buffer.len() < shape.inputs + shape.gates {
        return Err(Refusal::BufferShort);
    }
    inputs::fill_inputs(list, task, change, buffer);
    sweep::pass(rows, shape.inputs, shape.gates, hot, buffer);
    Ok(())
}

// The same with R numbers for the rows of S signals. Not taken into its caller, whose frame would be touched page by page for a small card too.
// What is asked of R and S stands here and in three other crates: a const parameter carries no fact.
#[inline(never)]
fn full_within<const R: usize, const S: usize>(
    netlist: &[u8],
    list: &[u8],
    change: usize,
    buffer: &mut [u8],
) -> Result<(), Refusal>
    requires { (signals_for netlist.now ≤ S) × (9 * S + 64 ≤ R) × (R ≤ 20800) }
    ensures { (result ≡ full_answer netlist.now list.now change buffer.old) × (buffer.new ≡ full_buffer netlist.now list.now change buffer.old) }
{
    let mut rows = [0u16; R];
    let mut hot = [0u8; S];
    full_in(netlist, list, change, buffer, &mut rows, &mut hot)
}

// Writes the class of each signal in a change into the buffer's first bytes.
pub fn full(netlist: &[u8], list: &[u8], change: usize, buffer: &mut [u8]) -> Result<(), Refusal>
    ensures { (result ≡ full_answer netlist.now list.now change buffer.old) × (buffer.new ≡ full_buffer netlist.now list.now change buffer.old) }
{
    match rooms::room_for(netlist) {
        Room::Tiny => full_within::<640, 64>(netlist, list, change, buffer),
        Room::Small => full_within::<2944, 320>(netlist, list, change, buffer),
        Room::Middle => full_within::<4672, 512>(netlist, list, change, buffer),
        Room::Large => full_within::<20800, 2304>(netlist, list, change, buffer),
    }
}
