// A decoded card in lent numbers: readers of a gate's pins and word, and of an output's signal. Numbers and no structs: what `netlist::decode` leaves
// in them, the outputs' signals behind the gates' nines, is its promise (`decoded`).
#![tactic(auto)]

ghost use Rattle.std.specs.Prelude.{◌≡◌, ◌+◌, ◌*◌, ◌≤◌, ◌<◌, length};
ghost use Rattle.kung.specs.Tables.{tab};
ghost use Rattle.rows.specs.Rows.{pin_in, word_in, output_in};

// Number k of signal s's nine, which is a pin below 8.
pub fn pin_of(rows: &[u16], s: usize, k: usize) -> u16
    requires { 9 * s + k < length rows.now }
    ensures { result ≡ pin_in rows.now s k }
{
    rows[9 * s + k]
}

// The eight pins of signal s's gate.
pub fn pins_of(rows: &[u16], s: usize) -> &[u16]
    requires { 9 * s + 8 ≤ length rows.now }
    ensures { result.now ≡ tab (pin_in rows.now s) 0 8 }
{
    &rows[9 * s..9 * s + 8]
}

// Signal s's word.
pub fn word_of(rows: &[u16], s: usize) -> u16
    requires { 9 * s + 9 ≤ length rows.now }
    ensures { result ≡ word_in rows.now s }
{
    pin_of(rows, s, 8)
}

// The signal of an output, where the rows of n signals stand before it.
pub fn output_of(rows: &[u16], n: usize, output: usize) -> u16
    requires { 9 * n + output < length rows.now }
    ensures { result ≡ output_in rows.now n output }
{
    pin_of(rows, n, output)
}
