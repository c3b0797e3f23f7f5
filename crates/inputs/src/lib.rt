// An input's class in a change: the codes of all inputs, from the two vectors of a change list.
#![tactic(auto)]

ghost use Rattle.std.specs.Prelude.{◌≡◌, ◌++◌, ◌+◌, ◌≤◌, ◌<◌, length, drop};
ghost use Rattle.kung.specs.Tables.{tab};
ghost use Rattle.inputs.specs.Written.{input_codes, code_in, written};

use changes::Task;
use words::byte_at;

// The class of an input by bit k of its two bytes: the clean one with these ends.
pub fn class_of_bits(first: u8, second: u8, k: usize) -> u8
    requires { k < 8 }
    ensures { result ≡ code_in first second k }
{
    let start = (first >> k) % 2;
    let end = (second >> k) % 2;
    start + 2 * (start ^ end)
}

// Writes the classes of the inputs of two bytes, as many as there is room for.
fn fill_byte(first: u8, second: u8, classes: &mut [u8])
    requires { length classes.old ≤ 8 }
    ensures { classes.new ≡ tab (code_in first second) 0 (length classes.old) }
{
    for (k, class) in classes.iter_mut().enumerate() {
        *class = class_of_bits(first, second, k);
    }
}

// Writes the classes of the inputs in change t into the first bytes of the buffer.
pub fn fill_inputs(list: &[u8], task: Task, t: usize, buffer: &mut [u8])
    requires { (task.layout.width ≤ 32) × (task.layout.row ≤ 8) × (t ≤ 1000) × (task.shape.inputs ≤ length buffer.old) }
    ensures { buffer.new ≡ input_codes list.now task.layout t task.shape.inputs ++ drop task.shape.inputs buffer.old }
{
    let inputs = task.shape.inputs;
    let first = task.layout.change_at(t);
    let second = first + task.layout.width;
    let whole = inputs / 8;
    // not by `chunks_mut`: std does not say what the buffer holds after it
    for j in 0..whole {
        fill_byte(
            byte_at(list, first + j),
            byte_at(list, second + j),
            &mut buffer[8 * j..8 * j + 8],
        );
    }
    fill_byte(
        byte_at(list, first + whole),
        byte_at(list, second + whole),
        &mut buffer[8 * whole..inputs],
    );
}
