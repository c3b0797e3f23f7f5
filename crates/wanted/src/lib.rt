// The wanted sets of the outputs in a change: the classes with which an output is clean.
#![tactic(auto)]

ghost use Rattle.std.specs.Prelude.{◌≡◌, ◌≤◌};
ghost use Rattle.kung.specs.Class.{same};
ghost use Rattle.kung.specs.Sets.{set_of};
ghost use Rattle.changes.specs.Changes.{declared_class_at};
ghost use Rattle.wanted.specs.Wanted.{wanted_at};
ghost use Rattle.wanted.specs.Sets.{sets_at};

use changes::Layout;
use words::byte_at;

// {0, 1, R, F}.
const CLEAN_SET: u8 = 15;

// The set of the clean class with the declared ends.
fn declared_set(list: &[u8], layout: Layout, change: usize, output: usize) -> u8
    requires { (layout.width ≤ 32) × (layout.row ≤ 8) × (change ≤ 1000) × (output ≤ 64) }
    ensures { result ≡ set_of (same (declared_class_at list.now layout change output)) }
{
    let starts = layout.change_at(change) + 2 * layout.width;
    let ends = starts + layout.row;
    let byte = output / 8;
    let class = inputs::class_of_bits(
        byte_at(list, starts + byte),
        byte_at(list, ends + byte),
        output % 8,
    );
    kung::with_class(0, class)
}

// The wanted set of an output.
pub fn wanted_set(list: &[u8], layout: Layout, change: usize, output: usize) -> u8
    requires { (layout.width ≤ 32) × (layout.row ≤ 8) × (change ≤ 1000) × (output ≤ 64) }
    ensures { result ≡ wanted_at list.now layout change output }
{
    if layout.version == 2 {
        declared_set(list, layout, change, output)
    } else {
        CLEAN_SET
    }
}

// The wanted sets of all outputs, made once for a change. Past the rows, which a list of version 1 does not have, all are the clean set.
pub fn wanted_sets(list: &[u8], layout: Layout, change: usize) -> [u8; 64]
    requires { (layout.width ≤ 32) × (layout.row ≤ 8) × (change ≤ 1000) }
    ensures { result ≡ sets_at list.now layout change }
{
    let mut sets = [CLEAN_SET; 64];
    // not over the items of `sets[..8 * layout.row]`: tried, the proof did not close, for the goals show no value of a local array's part
    for output in 0..8 * layout.row {
        sets[output] = declared_set(list, layout, change, output);
    }
    sets
}
