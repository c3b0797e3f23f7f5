// CORE's cycle of visits: the search of one signal.
#![tactic(auto)]

ghost use Rattle.std.specs.Prelude.{◌≡◌, cond, ◌+◌, ◌*◌, ◌/◌, ◌≤◌, ◌<◌, length, get_or};
ghost use Rattle.kung.specs.Class.{of_code};
ghost use Rattle.kung.specs.Operation.{op_at};
ghost use Rattle.kung.specs.Tables.{preimage};
ghost use Rattle.rows.specs.Rows.{count_in, gate_in, pin_in};
ghost use Rattle.search.specs.Search.{waits, judged, search};
ghost use Rattle.checks.specs.Codes.{waiting_of};
ghost use Rattle.cells.specs.Cells.{known_in, told_in};
ghost use Rattle.visit.specs.Source.{source_from};
ghost use Rattle.visit.specs.Found.{verdict_code, found_of};
ghost use Rattle.visit.specs.Lent.{SearchReady, InputsGiven};
ghost use Rattle.visit.specs.Codes.{verdict_from};
ghost use Rattle.visit.specs.Visits.{Lends, Takes};

use cells::{Counts, arrive, is_told, known_mark, leave, mark_of, open_mark, reset};
use checks::{NOBODY, STOPPED, check_known, check_set, class_of, has_class};
use kung::{only_class, swapped};
use lookup::{joined_by, possible_set, preimage_of, reach_of, stop_bits};
use rows::{pin_of, word_of};

// No Option: a hazard is a verdict of its own, and not a class that is missing.
#[derive(Clone, Copy, Debug, PartialEq, Eq)]
pub enum Verdict {
    Clean { class: u8 },
    Hazardous,
}

// The answer of a search.
#[derive(Clone, Copy, Debug, PartialEq, Eq)]
pub struct Found {
    pub verdict: Verdict,
    pub gates: usize,
    pub pins: usize,
}

// A gate that waits with p, as a number below NOBODY.
fn waiter_of(gate: usize, p: usize) -> usize
    ensures { (waiting_of result ≡ waits (op_at gate) (of_code p)) × (result < 16) }
{
    8 * (gate % 2) + p % 8
}

// What the gate behind a pin is to reach, before the waiting gate's p is joined: `left` where pins are left after that one.
fn goal_of(left: bool, reach: usize, want: usize) -> usize
    ensures { result ≡ cond left reach want }
{
    if left { reach } else { want }
}

// A visit of signal s, of whose class nothing is told: its gate's pins are taken in turn, until none is left or the checks end the visit. Rows, cells
// and tally are parameters and no struct, through which each look at a byte would take one step more.
#[cycle(take_visit)]
fn visit(
    rows: &[u16],
    cells: &mut [u8],
    tally: &mut Counts,
    s: usize,
    wanted: usize,
    waiter: usize,
) -> usize
    requires search_ready { SearchReady rows.now (known_in cells.old) }
    requires lends { Lends rows.now s cells.old tally.old × (told_in (get_or cells.old s 0) ≡ 8) × (waiter < 17) × (wanted < 256) }
    ensures { Takes rows.now s wanted waiter cells.old cells.new tally.new result }
{
    // the gate is its operation, and 2 more where it inverts
    let word = word_of(rows, s);
    let gate = (word % 4) as usize;
    let inverted = gate / 2 == 1;
    let count = (word / 4) as usize;
    let begun = arrive(cells, tally, s, gate);
    let mut p = begun.p;
    let want = swapped(inverted, wanted);
    let reach = reach_of(gate, want);
    let stop = stop_bits(waiter, gate, reach);
    for next in begun.next..count {
        if has_class(stop, p) {
            let set = possible_set(gate, inverted, p);
            let class = only_class(set);
            let answer = check_set(set, class, wanted, waiter);
            leave(cells, tally, s, mark_of(class, p, next), next);
            return answer;
        }
        let x = pin_of(rows, s, next) as usize;
        let goal = goal_of(next + 1 < count, reach, want);
        let ending = take(rows, cells, tally, x, waiter_of(gate, p), goal);
        if STOPPED <= ending {
            leave(cells, tally, s, open_mark(p, next + 1), next + 1);
            return STOPPED;
        }
        p = ending;
    }
    let class = class_of(gate, p);
    let answer = check_known(class, wanted, waiter);
    leave(cells, tally, s, known_mark(class, count), count);
    answer
}

// A pin on signal x is taken: the gate behind it is visited, unless its class is told.
#[cycle(take_visit)]
fn take(
    rows: &[u16],
    cells: &mut [u8],
    tally: &mut Counts,
    x: usize,
    waiter: usize,
    goal: usize,
) -> usize
    requires search_ready { SearchReady rows.now (known_in cells.old) }
    requires lends { Lends rows.now x cells.old tally.old × (waiter < 16) × (goal < 256) }
    ensures { Takes rows.now x (preimage (op_at (waiter / 8)) (of_code waiter) goal) waiter cells.old cells.new tally.new result }
{
    let byte = cells[x];
    if is_told(byte) {
        return joined_by(waiter, byte as usize);
    }
    let wanted = preimage_of(waiter, goal);
    visit(rows, cells, tally, x, wanted, waiter)
}

// A class that is known without a visit, judged against the wanted set.
fn judge(wanted: usize, class: u8) -> Verdict
    requires { class < 8 }
    ensures { result ≡ verdict_code (judged wanted (of_code class)) }
{
    if has_class(wanted, class as usize) {
        Verdict::Clean { class }
    } else {
        Verdict::Hazardous
    }
}

fn verdict_of(ending: usize) -> Verdict
    ensures { result ≡ verdict_from ending }
{
    if ending < STOPPED {
        Verdict::Clean {
            class: ending as u8,
        }
    } else {
        Verdict::Hazardous
    }
}

// The search of signal s. Each call starts afresh, and leaves the lent bytes as they were. The signals below `first` are inputs, whose bytes no
// visit writes.
pub fn find(rows: &[u16], known: &mut [u8], first: usize, wanted: u8, s: usize) -> Found
    requires { SearchReady rows.now known.old × InputsGiven first known.old × (s < length known.old) }
    ensures found { result ≡ found_of (search (source_from rows.now known.old) wanted s) }
    ensures known { known.new ≡ known.old }
{
    let class = known[s];
    if class < 8 {
        return Found {
            verdict: judge(wanted as usize, class),
            gates: 0,
            pins: 0,
        };
    }
    let mut tally = Counts { gates: 0, pins: 0 };
    let ending = visit(rows, known, &mut tally, s, wanted as usize, NOBODY);
    reset(&mut known[first..s + 1]);
    Found {
        verdict: verdict_of(ending),
        gates: tally.gates,
        pins: tally.pins,
    }
}
