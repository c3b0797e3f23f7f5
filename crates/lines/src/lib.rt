// The program's lines: the first one, and those of a change, with the classes that they print.
#![tactic(auto)]

ghost use Rattle.std.specs.Prelude.{◌≡◌, ◌+◌, ◌<◌, ◌≤◌, length};
ghost use Rattle.changes.specs.Lent.{signals_of};
ghost use Rattle.changes.specs.Refusals.{list_checked};
ghost use Rattle.outputs.specs.Lent.{OutputsReady};
ghost use Rattle.report.specs.Appended.{Fits, Appended};
ghost use Rattle.lines.specs.Texts.{texts, first_line};
ghost use Rattle.lines.specs.Lent.{text_from, classes_from};

use jobs::Job;
use netlist::Shape;
use report::{Line, Text};

// The line of the counts, or of the refusal.
pub fn put_line(netlist: &[u8], list: &[u8], text: &mut Text)
    requires { text.old.written + 64 ≤ length text.old.bytes.now }
    ensures { Appended text.old text.new (first_line (list_checked netlist.now list.now)) }
{
    match changes::check(netlist, list) {
        Err(refusal) => text.put_refusal(refusal.number(), refusal.place()),
        Ok(task) => {
            let shape = task.shape;
            text.put_counts(shape.inputs, shape.gates, shape.outputs, task.changes);
        }
    }
}

// The lines of a change's outputs: each is searched with its wanted set, and its class is the one that full simulation gives. What is known stays.
// By rows and shape, not by a job: any rows do whose outputs can be searched.
pub fn put_outputs(
    rows: &[u16],
    shape: Shape,
    wanted: &[u8; 64],
    known: &mut [u8],
    classes: &[u8],
    change: usize,
    text: &mut Text,
)
    requires outputs_ready { OutputsReady rows.now known.old shape 64 }
    requires known_in_bounds { length known.old ≤ length classes.now }
    requires fits { Fits text.old (texts (text_from rows.now known.old wanted.now classes.now (signals_of shape) change) 0 shape.outputs) }
    ensures lines { Appended text.old text.new (texts (text_from rows.now known.old wanted.now classes.now (signals_of shape) change) 0 shape.outputs) }
    ensures known { known.new ≡ known.old }
{
    let signals = shape.inputs + shape.gates;
    // by number: an output's signal and wanted set stand in two places, and its line says it
    for output in 0..shape.outputs {
        let signal = rows::output_of(rows, signals, output) as usize;
        let found = visit::find(rows, known, shape.inputs, wanted[output], signal);
        text.put_verdict(Line {
            change,
            output,
            class: classes[signal],
            // by its byte, as the text's definition has it
            clean: outputs::byte_of(found.verdict) == 0,
            gates: found.gates,
            pins: found.pins,
        });
    }
}

// The classes of a change.
pub fn classify(job: Job<'_>, change: usize, classes: &mut [u8])
    requires classes_in_bounds { signals_of job.task.shape ≤ length classes.old }
    requires change_in_bounds { change < job.task.changes }
    ensures { classes.new ≡ classes_from job.entry change classes.old }
{
    let shape = job.task.shape;
    let mut hot = [0u8; 2304];
    inputs::fill_inputs(job.list, job.task, change, classes);
    sweep::pass(job.rows, shape.inputs, shape.gates, &mut hot, classes);
}
