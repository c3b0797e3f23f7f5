// Change lists: the check against a netlist with its refusals. Netlist and list are two slices in every call, since the library's callers hand in two.
#![tactic(auto)]

ghost use Rattle.std.specs.Prelude.{◌≡◌, ◌≤◌, length, Ok};
ghost use Rattle.netlist.specs.Decoded.{decoded};
ghost use Rattle.changes.specs.Changes.{version_of, by_version, layout_of, change_at};
ghost use Rattle.changes.specs.Refusals.{task_of, after_netlist, list_checked};

use netlist::Shape;
use refusals::Refusal;
use words::{long_at, word_at};

// How the changes of a list lie in its bytes: its version, the bytes of a vector, and those of a row of declared ends, none in version 1. The version
// is the file's number and no enum, since the check lays out a list of any version. No ghost field says that width and row are small: the definition
// `layout_of` makes layouts for counts of any size.
#[derive(Clone, Copy)]
pub struct Layout {
    pub version: usize,
    pub width: usize,
    pub row: usize,
}

impl Layout {
    // The place of change t; for the number of changes, the end of the list.
    pub fn change_at(self, t: usize) -> usize
        requires { (self.width ≤ 32) × (self.row ≤ 8) × (t ≤ 1000) }
        ensures value { result ≡ change_at self t }
        ensures low { result ≤ 80011 }
    {
        11 + t * (2 * self.width + 2 * self.row)
    }
}

// What an accepted netlist and list give together: the netlist's shape, the number of changes and how they lie.
#[derive(Clone, Copy)]
pub struct Task {
    pub shape: Shape,
    pub changes: usize,
    pub layout: Layout,
}

// What version 1 has, or version 2.
fn by_version(version: usize, one: usize, two: usize) -> usize
    ensures { result ≡ by_version version one two }
{
    if version == 2 { two } else { one }
}

// How the changes of a list lie for a netlist of so many inputs and outputs.
fn layout_of(list: &[u8], inputs: usize, outputs: usize) -> Layout
    requires { (inputs ≤ 256) × (outputs ≤ 64) }
    ensures { result ≡ layout_of (version_of list.now) inputs outputs }
{
    let version = word_at(list, 3) as usize;
    Layout {
        version,
        width: inputs.div_ceil(8),
        row: by_version(version, 0, outputs).div_ceil(8),
    }
}

// The list for the netlist of a task, whose tie is given.
#[tactic(auto, using(std::proofs::lemmas::Bool::Decides::nat_tests), unfolding(crate::specs::Refusals::after_netlist, crate::specs::Refusals::refuse_spare, refusals::specs::Refusal::refuse, words::specs::Words::outside))]
fn check_list(list: &[u8], task: Task, tie: u32) -> Result<Task, Refusal>
    requires task_value { task ≡ task_of task.shape list.now }
    requires shape_bound { (task.shape.inputs ≤ 256) × (task.shape.outputs ≤ 64) }
    ensures { result ≡ after_netlist task.shape.inputs task.shape.outputs tie list.now (Ok task) }
{
    if list.len() < 11 {
        return Err(Refusal::ListShort(list.len()));
    }
    if !words::is_marked(list, b"LCT") {
        return Err(Refusal::ListMark);
    }
    let layout = task.layout;
    let version = layout.version;
    if words::is_outside(1, 2, version) {
        return Err(Refusal::ListVersion);
    }
    if long_at(list, 5) != tie {
        return Err(Refusal::Tie);
    }
    let changes = task.changes;
    if by_version(version, 1000, 800) < changes {
        return Err(Refusal::Changes);
    }
    if list.len() != layout.change_at(changes) {
        return Err(Refusal::ListLength(list.len()));
    }
    let declared = by_version(version, 0, task.shape.outputs);
    match spares::first_spare(list, task.shape.inputs, declared, changes) {
        Some(place) => Err(Refusal::SpareBit(place)),
        None => Ok(task),
    }
}

// The check of a change list against its netlist, whose rows are kept in the lent numbers.
#[tactic(auto, using(crate::proofs::Accepted::few_bits), unfolding(crate::specs::Refusals::list_checked, crate::specs::Refusals::against))]
pub fn decode(
    netlist: &[u8],
    list: &[u8],
    rows: &mut [u16],
    repeated: bool,
) -> Result<Task, Refusal>
    ensures value { result ≡ list_checked netlist.now list.now }
    ensures rows_after { rows.new ≡ decoded repeated netlist.now rows.old }
{
    let shape = netlist::decode(netlist, rows, repeated)?;
    let task = Task {
        shape,
        changes: word_at(list, 9) as usize,
        layout: layout_of(list, shape.inputs, shape.outputs),
    };
    check_list(list, task, tie::tie(netlist))
}

// The check of a change list against its netlist.
pub fn check(netlist: &[u8], list: &[u8]) -> Result<Task, Refusal>
    ensures { result ≡ list_checked netlist.now list.now }
{
    let mut none = [0u16; 0];
    decode(netlist, list, &mut none, false)
}
