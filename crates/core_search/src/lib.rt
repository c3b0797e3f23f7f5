// CORE: the search of an output of a change.
#![tactic(auto)]

ghost use Rattle.std.specs.Prelude.{◌≡◌, ◌+◌, ◌*◌, ◌≤◌, length, replicate};
ghost use Rattle.changes.specs.Lent.{signals_for};
ghost use Rattle.core_search.specs.Core.{core_answer};

use refusals::Refusal;
use rooms::Room;
use visit::{Found, find};

// Whether an output can glitch in a change, in lent room: apart from `core_within`, of which there is one for each size.
fn core_in(
    netlist: &[u8],
    list: &[u8],
    change: usize,
    output: usize,
    rows: &mut [u16],
    known: &mut [u8],
) -> Result<Found, Refusal>
    requires netlist_in_bounds { (signals_for netlist.now ≤ length known.old) × (9 * length known.old + 64 ≤ length rows.old) }
    requires known_value { known.old ≡ replicate (length known.old) 8 }
    ensures { result ≡ core_answer netlist.now list.now change output }
{
    let task = changes::decode(netlist, list, rows, false)?;
    if task.changes <= change {
        return Err(Refusal::NoChange);
    }
    let shape = task.shape;
    if shape.outputs <= output {
        return Err(Refusal::NoOutput);
    }
    inputs::fill_inputs(list, task, change, known);
    let signals = shape.inputs + shape.gates;
    let s = rows::output_of(rows, signals, output) as usize;
    let wanted = wanted::wanted_set(list, task.layout, change, output);
    Ok(find(rows, &mut known[..signals], shape.inputs, wanted, s))
}

// The same with R numbers for the rows of S signals. Not taken into its caller, whose frame would be touched page by page for a small card too.
// What is asked of R and S stands here and in three other crates: a const parameter carries no fact.
#[inline(never)]
fn core_within<const R: usize, const S: usize>(
    netlist: &[u8],
    list: &[u8],
    change: usize,
    output: usize,
) -> Result<Found, Refusal>
    requires { (signals_for netlist.now ≤ S) × (9 * S + 64 ≤ R) × (R ≤ 20800) }
    ensures { result ≡ core_answer netlist.now list.now change output }
{
    let mut rows = [0u16; R];
    let mut known = [8u8; S];
    core_in(netlist, list, change, output, &mut rows, &mut known)
}

// Whether an output can glitch in a change: clean with its class, or hazardous, with the gates visited and the pins taken.
pub fn core(netlist: &[u8], list: &[u8], change: usize, output: usize) -> Result<Found, Refusal>
    ensures { result ≡ core_answer netlist.now list.now change output }
{
    match rooms::room_for(netlist) {
        Room::Tiny => core_within::<640, 64>(netlist, list, change, output),
        Room::Small => core_within::<2944, 320>(netlist, list, change, output),
        Room::Middle => core_within::<4672, 512>(netlist, list, change, output),
        Room::Large => core_within::<20800, 2304>(netlist, list, change, output),
    }
}
