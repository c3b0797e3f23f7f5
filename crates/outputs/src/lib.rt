// The searches of all outputs of a change.
#![tactic(auto)]

ghost use Rattle.std.specs.Prelude.{◌≡◌, length};
ghost use Rattle.changes.specs.Lent.{signals_of};
ghost use Rattle.inputs.specs.Written.{written};
ghost use Rattle.outputs.specs.Outputs.{byte_from, sum_from};
ghost use Rattle.outputs.specs.Codes.{found_byte};
ghost use Rattle.outputs.specs.Lent.{OutputsReady};

use cells::Counts;
use netlist::Shape;
use visit::{Verdict, find};

// An output's byte.
pub fn byte_of(verdict: Verdict) -> u8
    ensures { result ≡ found_byte verdict }
{
    match verdict {
        Verdict::Clean { class: _ } => 0,
        Verdict::Hazardous => 1,
    }
}

// Searches each output afresh, with its wanted set, and writes its byte; returns the gates visited and pins taken in all searches. What is known stays.
pub fn search_outputs(
    rows: &[u16],
    shape: Shape,
    wanted: &[u8; 64],
    known: &mut [u8],
    buffer: &mut [u8],
) -> Counts
    requires { OutputsReady rows.now known.old shape (length buffer.old) }
    ensures gates { result.gates ≡ sum_from (λ a. a.gates) rows.now known.old wanted.now (signals_of shape) shape.outputs }
    ensures pins { result.pins ≡ sum_from (λ a. a.pins) rows.now known.old wanted.now (signals_of shape) shape.outputs }
    ensures bytes { buffer.new ≡ written buffer.old 0 (byte_from rows.now known.old wanted.now (signals_of shape)) shape.outputs }
    ensures known { known.new ≡ known.old }
{
    let signals = shape.inputs + shape.gates;
    let mut gates: usize = 0;
    let mut pins: usize = 0;
    // by number: an output's signal, wanted set and byte stand in three places
    for output in 0..shape.outputs {
        let signal = rows::output_of(rows, signals, output) as usize;
        let found = find(rows, known, shape.inputs, wanted[output], signal);
        let verdict = found.verdict;
        buffer[output] = byte_of(verdict);
        gates += found.gates;
        pins += found.pins;
    }
    Counts { gates, pins }
}
