// The tie, which binds a list of changes to its netlist: two running sums of the bytes, by blocks.
#![tactic(auto)]

ghost use Rattle.std.specs.Prelude.{◌≡◌, ◌*◌, ◌<◌, ◌≤◌};
ghost use Rattle.words.specs.Words.{byte_at};
ghost use Rattle.tie.specs.Tie.{tie_from, tie_of};
ghost use Rattle.tie.specs.Blocks.{sum_at, weight_at, column_at, columns_at};

use std::array;

// The sum of a block: what it adds to the first sum of the tie.
fn block_sum(block: &[u8; 64]) -> u32
    ensures { result ≡ sum_at 64 block.now 0 }
{
    let mut sum: u32 = 0;
    for byte in block {
        sum = sum.wrapping_add(*byte as u32);
    }
    sum
}

// A byte with a weight: u16 has room for four.
fn weighted(block: &[u8; 64], place: usize, weight: usize) -> u16
    requires { (place < 64) × (weight ≤ 64) }
    ensures { (result ≡ weight * byte_at block.now place) × (result ≤ 16320) }
{
    weight as u16 * block[place] as u16
}

// Column k of a block in four rows of 16: its four bytes with their weights.
fn column_at(block: &[u8; 64], k: usize) -> u16
    requires { k < 16 }
    ensures { result ≡ column_at block.now 0 k }
{
    weighted(block, k, 64 - k)
        + weighted(block, 16 + k, 48 - k)
        + weighted(block, 32 + k, 32 - k)
        + weighted(block, 48 + k, 16 - k)
}

// The 16 columns of a block, which do not wait for each other.
fn columns(block: &[u8; 64]) -> [u16; 16]
    ensures { result ≡ columns_at block.now 0 }
{
    array::from_fn(|k| column_at(block, k))
}

// The sum of a block with the weights 64 to 1: what it adds to the second sum, beside 64 times the first.
// Its loop is that of `block_sum` over u16: one for both would have to say what a bound's cast gives, and is no plainer.
fn block_weight(block: &[u8; 64]) -> u32
    ensures { result ≡ weight_at 64 block.now 0 }
{
    let mut sum: u32 = 0;
    for column in columns(block) {
        sum = sum.wrapping_add(column as u32);
    }
    sum
}

// The tie of the bytes that are left, with the two sums of those before.
fn tie_from(rest: &[u8], first: u32, second: u32) -> u32
    ensures { result ≡ tie_from first second rest.now }
{
    let mut a = first;
    let mut b = second;
    for byte in rest {
        a = a.wrapping_add(*byte as u32);
        b = b.wrapping_add(a);
    }
    b
}

// The tie of a netlist, which binds a list of changes to it: by blocks of 64 bytes, whose own sums do not wait for each other.
pub fn tie(s: &[u8]) -> u32
    ensures { result ≡ tie_of s.now }
{
    let (blocks, rest) = s.as_chunks::<64>();
    let mut a: u32 = 0;
    let mut b: u32 = 0;
    for block in blocks {
        b = b.wrapping_add(a.wrapping_mul(64));
        b = b.wrapping_add(block_weight(block));
        a = a.wrapping_add(block_sum(block));
    }
    tie_from(rest, a, b)
}
