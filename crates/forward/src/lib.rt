// The forward method: constants spread first, then a search for each output.
#![tactic(auto)]

ghost use Rattle.std.specs.Prelude.{◌≡◌, ◌+◌, ◌*◌, ◌≤◌, ◌++◌, length, drop};
ghost use Rattle.changes.specs.Lent.{signals_for};
ghost use Rattle.sweep.specs.Sweep.{codes_of, hots_of, touched_by};
ghost use Rattle.sweep.specs.Lent.{Passable};
ghost use Rattle.forward.specs.Known.{known_or8, known_codes, swept_codes};
ghost use Rattle.forward.specs.Forward.{forward_answer, forward_buffer};

use refusals::Refusal;
use rooms::Room;

// A gate's class where it is constant, else 8.
fn known_or_8(class: u8) -> u8
    ensures { result ≡ known_or8 class }
{
    if class < 2 { class } else { 8 }
}

// Keeps the classes of the inputs and of the constant gates; the other gates are to be searched.
fn mark_unknown(inputs: usize, gates: usize, known: &mut [u8])
    requires { inputs + gates ≤ length known.old }
    ensures { known.new ≡ known_codes known.old inputs gates }
{
    for class in &mut known[inputs..inputs + gates] {
        *class = known_or_8(*class);
    }
}

// Spreads the constants from the inputs, whose classes the first bytes of `known` have, and returns the touched count. The constants are exactly the
// signals of class 0 or 1, so the classes of all signals are made, and those kept.
pub fn spread(rows: &[u16], inputs: usize, gates: usize, known: &mut [u8], hot: &mut [u8]) -> usize
    requires { Passable rows.now known.old (length hot.old) inputs gates }
    ensures touched { result ≡ touched_by rows.now (codes_of rows.now known.old inputs gates (inputs + gates)) inputs gates }
    ensures known { known.new ≡ known_codes (swept_codes rows.now known.old inputs gates) inputs gates }
    ensures hot { hot.new ≡ hots_of (codes_of rows.now known.old inputs gates (inputs + gates)) ++ drop (inputs + gates) hot.old }
{
    let touched = sweep::pass(rows, inputs, gates, hot, known);
    mark_unknown(inputs, gates, known);
    touched
}

// What the forward method counts: gates with a constant driver, and gates visited over all outputs.
#[derive(Clone, Copy)]
pub struct Forwarded {
    pub touched: usize,
    pub visited: usize,
}

// The verdicts of a change in lent room: apart from `forward_within`, of which there is one for each size.
fn forward_in(
    netlist: &[u8],
    list: &[u8],
    change: usize,
    buffer: &mut [u8],
    rows: &mut [u16],
    known: &mut [u8],
    hot: &mut [u8],
) -> Result<Forwarded, Refusal>
    requires netlist_in_bounds { (signals_for netlist.now ≤ length known.old) × (9 * length known.old + 64 ≤ length rows.old) }
    requires known_in_bounds { length known.old ≤ length hot.old }
    ensures { (result ≡ forward_answer netlist.now list.now change buffer.old) × (buffer.new ≡ forward_buffer netlist.now list.now change buffer.old) }
{
    let task = changes::decode(netlist, list, rows, true)?;
    if task.changes <= change {
        return Err(Refusal::NoChange);
    }
    let shape = task.shape;
    if buffer.len() < shape.outputs {
        return Err(Refusal::BufferShort);
    }
    inputs::fill_inputs(list, task, change, known);
    let touched = spread(rows, shape.inputs, shape.gates, known, hot);
    let signals = shape.inputs + shape.gates;
    let wanted = wanted::wanted_sets(list, task.layout, change);
    let searched = outputs::search_outputs(rows, shape, &wanted, &mut known[..signals], buffer);
    Ok(Forwarded {
        touched,
        visited: searched.gates,
    })
}

// The same with R numbers for the rows of S signals. Not taken into its caller, whose frame would be touched page by page for a small card too.
// What is asked of R and S stands here and in three other crates: a const parameter carries no fact.
#[inline(never)]
fn forward_within<const R: usize, const S: usize>(
    netlist: &[u8],
    list: &[u8],
    change: usize,
    buffer: &mut [u8],
) -> Result<Forwarded, Refusal>
    requires { (signals_for netlist.now ≤ S) × (9 * S + 64 ≤ R) × (R ≤ 20800) }
    ensures { (result ≡ forward_answer netlist.now list.now change buffer.old) × (buffer.new ≡ forward_buffer netlist.now list.now change buffer.old) }
{
    let mut rows = [0u16; R];
    let mut known = [8u8; S];
    let mut hot = [0u8; S];
    forward_in(
        netlist, list, change, buffer, &mut rows, &mut known, &mut hot,
    )
}

// Writes for each output whether it is clean (0) or hazardous (1) in a change.
pub fn forward(
    netlist: &[u8],
    list: &[u8],
    change: usize,
    buffer: &mut [u8],
) -> Result<Forwarded, Refusal>
    ensures { (result ≡ forward_answer netlist.now list.now change buffer.old) × (buffer.new ≡ forward_buffer netlist.now list.now change buffer.old) }
{
    match rooms::room_for(netlist) {
        Room::Tiny => forward_within::<640, 64>(netlist, list, change, buffer),
        Room::Small => forward_within::<2944, 320>(netlist, list, change, buffer),
        Room::Middle => forward_within::<4672, 512>(netlist, list, change, buffer),
        Room::Large => forward_within::<20800, 2304>(netlist, list, change, buffer),
    }
}
