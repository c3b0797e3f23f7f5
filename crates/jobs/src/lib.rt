// An accepted netlist and list, decoded: what the loops over changes work on.
#![tactic(auto)]

ghost use Rattle.std.specs.Prelude.{true};
ghost use Rattle.changes.specs.Lent.{Accepts};

use changes::Task;

// The files, what their check gave, and the rows into which it decoded the netlist, the last pin of each gate repeated.
#[derive(Clone, Copy)]
pub struct Job<'a> {
    pub netlist: &'a [u8],
    pub list: &'a [u8],
    pub task: Task,
    pub rows: &'a [u16],
    pub ghost accepts: { Accepts true netlist.now list.now rows.now task },
}
