// Kung's eight classes, and sets of them, as numbers and no enum: callers of the library are handed classes as bytes. The search works with machine
// words: bytes would be widened at each look-up.
#![tactic(auto)]

ghost use Rattle.std.specs.Prelude.{◌≡◌, ◌<◌};
ghost use Rattle.kung.specs.Class.{code, of_code};
ghost use Rattle.kung.specs.Rule.{invert};
ghost use Rattle.kung.specs.Members.{insert, swap_if, only_code};
ghost use Rattle.kung.specs.Gates.{unite};

// The class's inverse.
pub fn inverse(class: u8) -> u8
    ensures { result ≡ code (invert (of_code class)) }
{
    (class % 8) ^ 1
}

// The set with one class more.
pub fn with_class(set: u8, class: u8) -> u8
    ensures { result ≡ insert set (of_code class) }
{
    set | (1 << (class % 8))
}

// The set, or the set of its classes' inverses. Without a choice: which gates invert is no pattern that a processor could foresee.
pub fn swapped(inverted: bool, set: usize) -> usize
    requires { set < 256 }
    ensures { result ≡ swap_if inverted set }
{
    let places = inverted as usize;
    ((set & 85) << places) | ((set & 170) >> places)
}

// The code of the set's only class, or 8: a number and no Option, since the hottest loop keeps it in a gate's byte as it is. Tried by
// `is_power_of_two`, which counts bits and costs the search three per cent.
pub fn only_class(set: usize) -> usize
    requires { set < 256 }
    ensures { result ≡ only_code set }
{
    if set == 0 {
        return 8;
    }
    let rest = set & (set - 1);
    if rest == 0 {
        set.trailing_zeros() as usize
    } else {
        8
    }
}

// The classes of one set or the other.
pub fn union(a: u8, b: u8) -> u8
    ensures { result ≡ unite a b }
{
    a | b
}
