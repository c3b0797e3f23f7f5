// A signal's byte in a search: what it is on arrival and at a visit's end. A byte and no enum: a search is lent the bytes of the known classes, and
// promises to leave them as they were.
#![tactic(auto)]

ghost use Rattle.std.specs.Prelude.{◌≡◌, ◌+◌, ◌-◌, ◌/◌, ◌%◌, ◌≤◌, ◌<◌, ltb, length, get_or, set};
ghost use Rattle.cells.specs.Codes.{begun_from, arrived_tally, known_mark, open_mark, mark_of};
ghost use Rattle.cells.specs.Cells.{known_of, known_in, told_in};

// Gates visited and pins taken.
#[derive(Clone, Copy, Debug, PartialEq, Eq)]
pub struct Counts {
    pub gates: usize,
    pub pins: usize,
}

// Where a visit begins: the gate's p, and its next pin.
#[derive(Clone, Copy, Debug, PartialEq, Eq)]
pub struct Arrival {
    pub p: usize,
    pub next: usize,
}

// A gate that is new counts as visited on arrival, and starts from its unit; the pins of another do not count until the visit's end.
pub fn arrive(cells: &mut [u8], tally: &mut Counts, s: usize, gate: usize) -> Arrival
    requires { (s < length cells.old) × (tally.old.gates ≤ 2304) × (get_or cells.old s 0 / 8 - 2 ≤ tally.old.pins) }
    ensures p { result.p ≡ begun_from gate (get_or cells.old s 0) % 8 }
    ensures next { result.next ≡ begun_from gate (get_or cells.old s 0) / 8 - 2 }
    ensures cells { cells.new ≡ set cells.old s (16 + result.p) }
    ensures tally { tally.new ≡ arrived_tally tally.old (get_or cells.old s 0) }
{
    let cell = cells[s];
    if 16 <= cell {
        let p = cell % 8;
        let next = (cell / 8 - 2) as usize;
        tally.pins -= next;
        cells[s] = 16 + p;
        return Arrival {
            p: p as usize,
            next,
        };
    }
    let unit = 1 - gate % 2;
    tally.gates += 1;
    cells[s] = 16 + unit as u8;
    Arrival { p: unit, next: 0 }
}

// The byte of a known gate, and of an unfinished one.
pub fn known_mark(class: usize, next: usize) -> u8
    requires { (class < 8) × (next ≤ 13) }
    ensures { result ≡ known_mark class next }
{
    (128 + 8 * next + class) as u8
}

pub fn open_mark(p: usize, next: usize) -> u8
    requires { (p < 8) × (next ≤ 13) }
    ensures { result ≡ open_mark p next }
{
    (16 + 8 * next + p) as u8
}

// A gate's byte, by its class, 8 where it is not known.
pub fn mark_of(class: usize, p: usize, next: usize) -> u8
    requires { next ≤ 13 }
    ensures { result ≡ mark_of class p next }
{
    if class < 8 {
        known_mark(class, next)
    } else {
        open_mark(p % 8, next)
    }
}

// At a visit's end the gate's byte is written, and the pins count that the visit took.
pub fn leave(cells: &mut [u8], tally: &mut Counts, s: usize, byte: u8, taken: usize)
    requires { (s < length cells.old) × (tally.old.pins ≤ 36864) × (taken ≤ 13) }
    ensures cells { cells.new ≡ set cells.old s byte }
    ensures tally { tally.new ≡ record tally.old { pins = tally.old.pins + taken } }
{
    tally.pins += taken;
    cells[s] = byte;
}

// Whether a byte tells its signal's class, which is its last digit then.
pub fn is_told(byte: u8) -> bool
    ensures { result ≡ ltb (told_in byte) 8 }
{
    byte < 8 || 128 <= byte
}

// What was known before the search is left.
pub fn reset(cells: &mut [u8])
    ensures { cells.new ≡ known_in cells.old }
{
    for cell in cells {
        *cell = (*cell).min(8);
    }
}
