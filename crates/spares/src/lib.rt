// The spare bits of a change list's vectors and rows.
#![tactic(auto)]

ghost use Rattle.std.specs.Prelude.{◌≡◌, ◌+◌, ◌*◌, ◌^◌, ◌≤◌, ◌<◌, length};
ghost use Rattle.spares.specs.Spares.{width_of, size_of, spare_pair, first_spare};
ghost use Rattle.spares.specs.Looked.{Cleared};

// The least byte with a bit past its first `used`.
fn byte_past(used: usize) -> usize
    requires { used ≤ 8 }
    ensures { result ≡ 2 ^ used }
{
    1 << used
}

// The first byte with a spare bit of two vectors or rows of so many bits from a place on.
fn spare_in(list: &[u8], at: usize, bits: usize) -> Option<usize>
    requires { (11 ≤ at) × (bits ≤ 256) × (at + 2 * width_of bits ≤ length list.now) }
    ensures { result ≡ spare_pair bits list.now at }
{
    // here and below not `div_ceil`: tried, each answer on a width then needs an equation more
    let width = (bits + 7) / 8;
    // the bits in the last byte
    let used = bits + 8 - 8 * width;
    if used == 8 {
        return None;
    }
    let least = byte_past(used);
    let first = at + width - 1;
    if least <= list[first] as usize {
        return Some(first);
    }
    let second = at + width + width - 1;
    (least <= list[second] as usize).then_some(second)
}

// Whether two vectors or rows of so many bits, from a place on and in each change again, may have a spare bit. Their last bytes are united, and looked
// at once for all changes: few lists have a spare bit, and no jump waits for a byte.
fn may_spare(list: &[u8], at: usize, bits: usize, size: usize, changes: usize) -> bool
    requires { (1 ≤ at) × (at ≤ 100) × (bits ≤ 256) × (size ≤ 80) × (at + changes * size + 2 * width_of bits ≤ length list.now + size) }
    ensures { Cleared result bits list.now at size changes }
{
    let width = (bits + 7) / 8;
    // the bits in the last byte
    let used = bits + 8 - 8 * width;
    if used == 8 {
        return false;
    }
    let mut last = at + width - 1;
    let mut all: u8 = 0;
    // not by `chunks_exact`, here and below: a change may have no byte
    for t in 0..changes {
        all |= list[last] | list[last + width];
        last += size;
    }
    byte_past(used) <= all as usize
}

// The first byte with a spare bit, change after change.
fn spare_from(list: &[u8], inputs: usize, declared: usize, changes: usize) -> Option<usize>
    requires { (inputs ≤ 256) × (declared ≤ 64) × (length list.now ≡ 11 + changes * size_of (width_of inputs) (width_of declared)) }
    ensures { result ≡ first_spare changes inputs declared list.now 11 }
{
    let width = (inputs + 7) / 8;
    let row = (declared + 7) / 8;
    let mut at: usize = 11;
    for t in 0..changes {
        let spare = spare_in(list, at, inputs).or(spare_in(list, at + 2 * width, declared));
        if spare.is_some() {
            return spare;
        }
        at += 2 * width + 2 * row;
    }
    None
}

// The same, looked for only where there may be one.
pub fn first_spare(list: &[u8], inputs: usize, declared: usize, changes: usize) -> Option<usize>
    requires { (inputs ≤ 256) × (declared ≤ 64) × (length list.now ≡ 11 + changes * size_of (width_of inputs) (width_of declared)) }
    ensures { result ≡ first_spare changes inputs declared list.now 11 }
{
    let width = (inputs + 7) / 8;
    let row = (declared + 7) / 8;
    let size = 2 * width + 2 * row;
    if may_spare(list, 11, inputs, size, changes)
        || may_spare(list, 11 + 2 * width, declared, size, changes)
    {
        spare_from(list, inputs, declared, changes)
    } else {
        None
    }
}
