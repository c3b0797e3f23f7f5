// Every change of a list in one call: the card and its list are checked and decoded once, then all changes are judged.
#![tactic(auto)]

ghost use Rattle.std.specs.Prelude.{◌≡◌, ℕ, ◌+◌, ◌*◌, ◌≤◌, List, length, replicate};
ghost use Rattle.netlist.specs.declared.Shape.{Shape};
ghost use Rattle.changes.specs.Lent.{signals_of, signals_for};
ghost use Rattle.core_search.specs.Lent.{NoneKnown};
ghost use Rattle.lists.specs.Methods.{Method, full_of, forward_of, core_of};
ghost use Rattle.lists.specs.Lent.{Judges};
ghost use Rattle.batch.specs.Batch.{Answers};
ghost use Rattle.batch.specs.Laws.{AnalysisLaws, full_laws, forward_laws, core_laws};

use jobs::Job;
use lists::{Judged, core_rows, forward_rows, full_rows};
use netlist::Shape;
use refusals::Refusal;
use rooms::Room;

// What to find out of each change of a list.
trait Analysis {
    ghost method: { List ℕ → List ℕ → Method };

    ghost width_for: { Shape → ℕ };

    // The bytes of a change.
    fn width(shape: Shape) -> usize
        requires { (shape.inputs ≤ 256) × (shape.gates ≤ 2048) }
        ensures { result ≡ width_for shape };

    // Each change of an accepted list is judged, in lent room.
    fn judge_rows(job: Job<'_>, known: &mut [u8], hot: &mut [u8], buffer: &mut [u8]) -> Judged
        requires buffer_in_bounds { job.task.changes * width_for job.task.shape ≤ length buffer.old }
        requires shape_in_bounds { (signals_of job.task.shape ≤ length known.old) × (length known.old ≤ length hot.old) × NoneKnown job.task.shape.inputs known.old }
        ensures { Judges (method job.entry.netlist.now job.entry.list.now) job.entry.task.changes buffer.old buffer.new result };

    // The rows of an accepted list have this width, which is small.
    ghost laws: { AnalysisLaws method width_for };
}

struct FullAnalysis;

impl Analysis for FullAnalysis {
    ghost method = { full_of };

    ghost width_for = { signals_of };

    ghost laws = { full_laws };

    fn width(shape: Shape) -> usize {
        shape.inputs + shape.gates
    }

    fn judge_rows(job: Job<'_>, _known: &mut [u8], hot: &mut [u8], buffer: &mut [u8]) -> Judged {
        full_rows(job, hot, buffer)
    }
}

struct ForwardAnalysis;

impl Analysis for ForwardAnalysis {
    ghost method = { forward_of };

    ghost width_for = { λ shape. shape.outputs };

    ghost laws = { forward_laws };

    fn width(shape: Shape) -> usize {
        shape.outputs
    }

    fn judge_rows(job: Job<'_>, known: &mut [u8], hot: &mut [u8], buffer: &mut [u8]) -> Judged {
        forward_rows(job, known, hot, buffer)
    }
}

struct CoreAnalysis;

impl Analysis for CoreAnalysis {
    ghost method = { core_of };

    ghost width_for = { λ shape. shape.outputs };

    ghost laws = { core_laws };

    fn width(shape: Shape) -> usize {
        ForwardAnalysis::width(shape)
    }

    fn judge_rows(job: Job<'_>, known: &mut [u8], _hot: &mut [u8], buffer: &mut [u8]) -> Judged {
        core_rows(job, known, buffer)
    }
}

// An analysis of each change of a list in lent room: the card and the list are checked once.
fn judge_in<A: Analysis>(
    netlist: &[u8],
    list: &[u8],
    buffer: &mut [u8],
    rows: &mut [u16],
    known: &mut [u8],
    hot: &mut [u8],
) -> Result<Judged, Refusal>
    requires netlist_in_bounds { (signals_for netlist.now ≤ length known.old) × (9 * length known.old + 64 ≤ length rows.old) }
    requires known_value { (known.old ≡ replicate (length known.old) 8) × (length known.old ≤ length hot.old) }
    ensures { Answers (A.method netlist.now list.now) netlist.now list.now buffer.old buffer.new result }
{
    let task = changes::decode(netlist, list, rows, true)?;
    if buffer.len() < task.changes * A::width(task.shape) {
        return Err(Refusal::BufferShort);
    }
    let job = Job {
        netlist,
        list,
        task,
        rows,
    };
    Ok(A::judge_rows(job, known, hot, buffer))
}

// The same with R numbers for the rows of S signals. Not taken into its caller, whose frame would be touched page by page for a small card too.
// What is asked of R and S stands here and in three other crates: a const parameter carries no fact.
#[inline(never)]
fn judge_within<A: Analysis, const R: usize, const S: usize>(
    netlist: &[u8],
    list: &[u8],
    buffer: &mut [u8],
) -> Result<Judged, Refusal>
    requires { (signals_for netlist.now ≤ S) × (9 * S + 64 ≤ R) × (R ≤ 20800) }
    ensures { Answers (A.method netlist.now list.now) netlist.now list.now buffer.old buffer.new result }
{
    let mut rows = [0u16; R];
    let mut known = [8u8; S];
    let mut hot = [0u8; S];
    judge_in::<A>(netlist, list, buffer, &mut rows, &mut known, &mut hot)
}

// The same in the room that the card needs.
fn judge<A: Analysis>(netlist: &[u8], list: &[u8], buffer: &mut [u8]) -> Result<Judged, Refusal>
    ensures { Answers (A.method netlist.now list.now) netlist.now list.now buffer.old buffer.new result }
{
    match rooms::room_for(netlist) {
        Room::Tiny => judge_within::<A, 640, 64>(netlist, list, buffer),
        Room::Small => judge_within::<A, 2944, 320>(netlist, list, buffer),
        Room::Middle => judge_within::<A, 4672, 512>(netlist, list, buffer),
        Room::Large => judge_within::<A, 20800, 2304>(netlist, list, buffer),
    }
}

// The class of each signal in each change of a list.
pub fn full(netlist: &[u8], list: &[u8], buffer: &mut [u8]) -> Result<Judged, Refusal>
    ensures { Answers (full_of netlist.now list.now) netlist.now list.now buffer.old buffer.new result }
{
    judge::<FullAnalysis>(netlist, list, buffer)
}

// The forward method's verdict on each output in each change of a list.
pub fn forward(netlist: &[u8], list: &[u8], buffer: &mut [u8]) -> Result<Judged, Refusal>
    ensures { Answers (forward_of netlist.now list.now) netlist.now list.now buffer.old buffer.new result }
{
    judge::<ForwardAnalysis>(netlist, list, buffer)
}

// CORE's verdict on each output in each change of a list.
pub fn core(netlist: &[u8], list: &[u8], buffer: &mut [u8]) -> Result<Judged, Refusal>
    ensures { Answers (core_of netlist.now list.now) netlist.now list.now buffer.old buffer.new result }
{
    judge::<CoreAnalysis>(netlist, list, buffer)
}
