// Joins and sets of classes, looked up in the constant tables.
#![tactic(auto)]

ghost use Rattle.std.specs.Prelude.{◌≡◌, true, ◌+◌, ◌*◌, ◌/◌, ◌<◌, get_or};
ghost use Rattle.kung.specs.Class.{code, of_code};
ghost use Rattle.kung.specs.Operation.{join, op_at};
ghost use Rattle.kung.specs.Sets.{image, possible};
ghost use Rattle.kung.specs.Members.{insert, members};
ghost use Rattle.kung.specs.Tables.{preimage, reach, image_place, block_rule};
ghost use Rattle.kung.specs.Lookup.{search_table, joined_by, stop_set};
ghost use Rattle.kung.specs.Gates.{gate_at};

use kung::{swapped, with_class};

// An image's place in the table of the search.
fn place(operation: usize, p: usize, set: usize) -> usize
    requires { set < 256 }
    ensures { result ≡ image_place operation p set }
{
    (operation % 2) * 2048 + (p % 8) * 256 + set
}

// What p joined with a class of the set can give.
pub fn image_of(operation: usize, p: usize, set: usize) -> u8
    requires { set < 256 }
    ensures { result ≡ image (op_at operation) (of_code p) set }
{
    tables::search()[place(operation, p, set)]
}

// The join of two classes: the one class of an image, so the lowest.
pub fn joined(operation: u8, p: u8, class: u8) -> u8
    ensures { result ≡ code (join (op_at operation) (of_code p) (of_code class)) }
{
    let image = image_of(
        operation as usize,
        p as usize,
        with_class(0, class) as usize,
    );
    u8::trailing_zeros(image) as u8
}

// What a gate can still give while pins are left, p being the join of those taken.
pub fn possible_set(operation: usize, inverted: bool, p: usize) -> usize
    ensures { result ≡ possible (op_at operation) inverted (of_code p) true }
{
    swapped(inverted, image_of(operation, p, 255) as usize)
}

// An entry of the table of the search, as a machine word.
fn number_at(place: usize) -> usize
    requires { place < 4888 }
    ensures { result ≡ get_or search_table place 0 }
{
    tables::search()[place] as usize
}

// What the waiting gate makes of a class: the join with its p, or the class itself where nobody waits.
pub fn joined_by(waiter: usize, class: usize) -> usize
    requires { waiter < 17 }
    ensures { result ≡ code (joined_by waiter (of_code class)) }
{
    number_at(4096 + waiter * 8 + class % 8)
}

// Where a block's entry stands in the table of the search.
fn entry_in(block: usize, entry: usize) -> usize
    requires { (block < 18) × (entry < 32) }
    ensures { result ≡ 4096 + 216 + block * 32 + entry }
{
    4096 + 216 + block * 32 + entry
}

// What a block has for a set: the union of what it has for the set's halves.
fn in_block(block: usize, set: usize) -> usize
    requires { (block < 18) × (set < 256) }
    ensures { result ≡ block_rule block set }
{
    number_at(entry_in(block, set % 16)) | number_at(entry_in(block, 16 + set / 16))
}

// The classes that the waiting gate's p joins into the set.
pub fn preimage_of(waiter: usize, set: usize) -> usize
    requires { (waiter < 16) × (set < 256) }
    ensures { result ≡ preimage (op_at (waiter / 8)) (of_code waiter) set }
{
    in_block(waiter, set)
}

// The classes that some further class joins into the set.
pub fn reach_of(operation: usize, set: usize) -> usize
    requires { set < 256 }
    ensures { result ≡ reach (op_at operation) set }
{
    in_block(16 + operation % 2, set)
}

// The p with which the checks end a gate's visit while pins are left; `reach` is the reach of its wanted set before inversion.
pub fn stop_bits(waiter: usize, gate: usize, reach: usize) -> usize
    requires { (waiter < 17) × (gate < 4) × (reach < 256) }
    ensures { result ≡ stop_set waiter gate reach }
{
    (255 - reach) | number_at(4096 + 136 + waiter * 4 + gate)
}

// The set of a gate's class alone, by its operation and inversion, of which a larger number's last two bits tell, and the set of its pins'
// classes.
pub fn gate_set(gate: u8, set: u8) -> u8
    ensures { result ≡ insert 0 (gate_at gate (members set)) }
{
    tables::gate_table()[(gate % 4) as usize * 256 + set as usize]
}
