// How a visit ends: the checks of a gate's possible set.
#![tactic(auto)]

ghost use Rattle.std.specs.Prelude.{◌≡◌, cond, ◌/◌, ◌<◌, eqb};
ghost use Rattle.kung.specs.Class.{code, of_code};
ghost use Rattle.kung.specs.Operation.{invert_if};
ghost use Rattle.kung.specs.Sets.{has};
ghost use Rattle.kung.specs.Lookup.{joined_by};
ghost use Rattle.search.specs.Search.{only, same_result, checks};
ghost use Rattle.checks.specs.Codes.{waiting_of, code_or, check_of};

use kung::only_class;
use lookup::{image_of, joined_by};

// How a visit ends: with the class that the waiting gate goes on with, or STOPPED. These are numbers and no Options, since the hottest loop
// looks up the tables by them as they are.
pub const STOPPED: usize = 8;

// No gate waits for the output's.
pub const NOBODY: usize = 16;

// Whether a set has a class.
pub fn has_class(set: usize, class: usize) -> bool
    ensures { result ≡ has set (of_code class) }
{
    (set >> (class % 8)) % 2 == 1
}

// The class of a gate whose pins are all taken: p, inverted where the gate inverts.
pub fn class_of(gate: usize, p: usize) -> usize
    requires { gate < 4 }
    ensures { result ≡ code (invert_if (eqb (gate / 2) 1) (of_code p)) }
{
    (p % 8) ^ (gate / 2)
}

// Check (c): the one result that the waiting gate gets of any class of the set, or 8.
fn same_result_of(waiter: usize, set: usize) -> usize
    requires { set < 256 }
    ensures { result ≡ code_or (same_result (waiting_of waiter) set) }
{
    if waiter < NOBODY {
        only_class(image_of(waiter / 8, waiter, set) as usize)
    } else {
        8
    }
}

// The checks (a), (b) and (c) of a possible set, in order; `class` is its only one, or 8.
pub fn check_set(set: usize, class: usize, wanted: usize, waiter: usize) -> usize
    requires { (set < 256) × (waiter < 17) × (class ≡ code_or (only set)) }
    ensures { result ≡ check_of (waiting_of waiter) (checks set wanted (waiting_of waiter)) }
{
    if set & wanted == 0 {
        return STOPPED;
    }
    if class < 8 {
        return joined_by(waiter, class);
    }
    same_result_of(waiter, set)
}

// Of a gate whose class is known (a) and (b) are left.
pub fn check_known(class: usize, wanted: usize, waiter: usize) -> usize
    requires { waiter < 17 }
    ensures { result ≡ cond (has wanted (of_code class)) (code (joined_by waiter (of_code class))) 8 }
{
    if has_class(wanted, class) {
        joined_by(waiter, class)
    } else {
        STOPPED
    }
}
