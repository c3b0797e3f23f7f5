// How a gate's nine numbers are made from its record and kept.
// Bytes, place and count are three parameters and no struct: the room behind the place is eight words or the pins alone, so it would carry one fact or the other.
#![tactic(auto)]

ghost use Rattle.std.specs.Prelude.{◌≡◌, cond, [], ◌∷◌, ◌++◌, ◌+◌, ◌*◌, ◌≤◌, eqb, ltb, length};
ghost use Rattle.kung.specs.Rule.{each};
ghost use Rattle.making.specs.Making.{eight_at, own_at, past_of, row_at, put_at};

use std::array;
use words::word_in;

// Eight 1 and eight 0: the eight from 8 - count on say which of a row's pins are the gate's own.
static WINDOW: [u16; 16] = [1, 1, 1, 1, 1, 1, 1, 1, 0, 0, 0, 0, 0, 0, 0, 0];

// One of two numbers. By products, since a jump for each pin costs the check 1.3 to 1.6 times its time.
fn pick(own: u16, a: u16, b: u16) -> u16
    requires { own ≤ 1 }
    ensures { result ≡ cond (eqb own 1) a b }
{
    own * a + (1 - own) * b
}

// Eight numbers: the pins where eight words have room, and another number past them. No jump depends on how many pins there are.
fn eight_in(s: &[u8], at: usize, count: usize, past: u16) -> [u16; 8]
    requires { (count ≤ 8) × (at + 16 ≤ length s.now) }
    ensures { result ≡ eight_at s.now at count past }
{
    array::from_fn(|j| pick(WINDOW[8 - count + j], word_in(s, at + 2 * j), past))
}

// The pins alone where eight words have room, and 0 past them.
pub fn own_in(s: &[u8], at: usize, count: usize) -> [u16; 8]
    requires { (count ≤ 8) × (at + 16 ≤ length s.now) }
    ensures { result ≡ own_at s.now at count }
{
    eight_in(s, at, count, 0)
}

// What stands past a row's pins.
fn past_of(s: &[u8], at: usize, count: usize, repeated: bool) -> u16
    requires { (1 ≤ count) × (count ≤ 8) × (at + 2 * count ≤ length s.now) }
    ensures { result ≡ past_of repeated s.now at count }
{
    if repeated {
        word_in(s, at + 2 * count - 2)
    } else {
        0
    }
}

// A row where eight words have room. Without repeats it is what `own_in` gives, which a check has at hand.
pub fn row_in(s: &[u8], at: usize, count: usize, repeated: bool) -> [u16; 8]
    requires { (1 ≤ count) × (count ≤ 8) × (at + 16 ≤ length s.now) }
    ensures { result ≡ row_at repeated s.now at count }
{
    if repeated {
        let last = past_of(s, at, count, true);
        eight_in(s, at, count, last)
    } else {
        own_in(s, at, count)
    }
}

// A row where the bytes end with its pins, or soon after.
pub fn row_short(s: &[u8], at: usize, count: usize, repeated: bool) -> [u16; 8]
    requires { (1 ≤ count) × (count ≤ 8) × (at + 2 * count ≤ length s.now) }
    ensures { result ≡ row_at repeated s.now at count }
{
    let past = past_of(s, at, count, repeated);
    array::from_fn(|j| {
        if j < count {
            word_in(s, at + 2 * j)
        } else {
            past
        }
    })
}

// Whether all of a row are below a bound. The answers are joined by `|`, since a jump for each pin costs the check 1.3 to 1.6 times its time.
pub fn are_below(row: [u16; 8], bound: u16) -> bool
    ensures { result ≡ each (λ x. ltb x bound) row }
{
    let mut high: u16 = 0;
    for pin in row {
        high |= (bound <= pin) as u16;
    }
    high == 0
}

// Writes a signal's nine numbers, where they have room.
pub fn keep_row(rows: &mut [u16], signal: usize, row: [u16; 8], word: u16)
    requires { signal ≤ 2304 }
    ensures { rows.new ≡ put_at rows.old (9 * signal) (row ++ (word ∷ [])) }
{
    let base = 9 * signal;
    if rows.len() < base + 9 {
        return;
    }
    rows[base..base + 8].copy_from_slice(&row);
    rows[base + 8] = word;
}
