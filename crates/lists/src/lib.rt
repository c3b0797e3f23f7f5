// The three loops over the changes of an accepted list, one for each method: its rows go into the buffer one after the other.
#![tactic(auto)]

ghost use Rattle.std.specs.Prelude.{◌≡◌, ◌*◌, ◌≤◌, length};
ghost use Rattle.changes.specs.Lent.{signals_of};
ghost use Rattle.core_search.specs.Lent.{NoneKnown};
ghost use Rattle.lists.specs.Lent.{full_for, forward_for, core_for, Judges};
ghost use Rattle.lists.specs.Left.{after, heated, known_constants, filled};

use jobs::Job;

// The answer of a method: the number of changes, the bytes of each and two sums over all changes.
#[derive(Clone, Copy)]
pub struct Judged {
    pub changes: usize,
    pub width: usize,
    pub first: usize,
    pub second: usize,
}

// Full simulation of each change.
pub fn full_rows(job: Job<'_>, hot: &mut [u8], buffer: &mut [u8]) -> Judged
    requires buffer_in_bounds { job.task.changes * signals_of job.task.shape ≤ length buffer.old }
    requires shape_in_bounds { signals_of job.task.shape ≤ length hot.old }
    ensures judges { Judges (full_for job.entry) job.entry.task.changes buffer.old buffer.new result }
    ensures hot { hot.new ≡ after (heated job.entry) job.entry.task.changes hot.old }
{
    let shape = job.task.shape;
    let signals = shape.inputs + shape.gates;
    for change in 0..job.task.changes {
        let at = change * signals;
        let row = &mut buffer[at..];
        inputs::fill_inputs(job.list, job.task, change, row);
        sweep::pass(job.rows, shape.inputs, shape.gates, hot, row);
    }
    Judged {
        changes: job.task.changes,
        width: signals,
        first: 0,
        second: 0,
    }
}

// The forward method on each change.
pub fn forward_rows(job: Job<'_>, known: &mut [u8], hot: &mut [u8], buffer: &mut [u8]) -> Judged
    requires buffer_in_bounds { job.task.changes * job.task.shape.outputs ≤ length buffer.old }
    requires shape_in_bounds { (signals_of job.task.shape ≤ length known.old) × (length known.old ≤ length hot.old) }
    ensures judges { Judges (forward_for job.entry) job.entry.task.changes buffer.old buffer.new result }
    ensures known { known.new ≡ after (known_constants job.entry) job.entry.task.changes known.old }
    ensures hot { hot.new ≡ after (heated job.entry) job.entry.task.changes hot.old }
{
    let shape = job.task.shape;
    let signals = shape.inputs + shape.gates;
    let outputs = shape.outputs;
    let mut touched: usize = 0;
    let mut visited: usize = 0;
    for change in 0..job.task.changes {
        let at = change * outputs;
        inputs::fill_inputs(job.list, job.task, change, known);
        touched += forward::spread(job.rows, shape.inputs, shape.gates, known, hot);
        let wanted = wanted::wanted_sets(job.list, job.task.layout, change);
        let searched = outputs::search_outputs(
            job.rows,
            shape,
            &wanted,
            &mut known[..signals],
            &mut buffer[at..],
        );
        visited += searched.gates;
    }
    Judged {
        changes: job.task.changes,
        width: outputs,
        first: touched,
        second: visited,
    }
}

// CORE on each change, which writes only the inputs' bytes of `known`.
pub fn core_rows(job: Job<'_>, known: &mut [u8], buffer: &mut [u8]) -> Judged
    requires buffer_in_bounds { job.task.changes * job.task.shape.outputs ≤ length buffer.old }
    requires shape_in_bounds { (signals_of job.task.shape ≤ length known.old) × NoneKnown job.task.shape.inputs known.old }
    ensures judges { Judges (core_for job.entry) job.entry.task.changes buffer.old buffer.new result }
    ensures known { known.new ≡ after (filled job.entry) job.entry.task.changes known.old }
{
    let shape = job.task.shape;
    let signals = shape.inputs + shape.gates;
    let outputs = shape.outputs;
    let mut visited: usize = 0;
    let mut taken: usize = 0;
    for change in 0..job.task.changes {
        let at = change * outputs;
        inputs::fill_inputs(job.list, job.task, change, known);
        let wanted = wanted::wanted_sets(job.list, job.task.layout, change);
        let searched = outputs::search_outputs(
            job.rows,
            shape,
            &wanted,
            &mut known[..signals],
            &mut buffer[at..],
        );
        visited += searched.gates;
        taken += searched.pins;
    }
    Judged {
        changes: job.task.changes,
        width: outputs,
        first: visited,
        second: taken,
    }
}
