// The gate pass over a decoded card: the waveform class of each signal from the inputs' classes.
#![tactic(auto)]

ghost use Rattle.std.specs.Prelude.{◌≡◌, ◌||◌, ◌++◌, ◌≤◌, length, take, drop};
ghost use Rattle.kung.specs.Class.{c0, c1};
ghost use Rattle.kung.specs.Sets.{bit, has};
ghost use Rattle.rows.specs.Rows.{row_pins};
ghost use Rattle.rows.specs.Lent.{GateRow, Repeats};
ghost use Rattle.sweep.specs.Sweep.{hots_of, pin_set};
ghost use Rattle.sweep.specs.Lent.{Passable, Passed};

// The union of the sets of a gate's pins. Always eight, the last repeated: no jump depends on the number of pins.
fn pin_set(rows: &[u16], s: usize, hot: &[u8]) -> u8
    requires { GateRow rows.now s × Repeats rows.now s × (s ≤ length hot.now) }
    ensures { result ≡ pin_set hot.now (row_pins rows.now s) }
{
    let mut set: u8 = 0;
    for pin in rows::pins_of(rows, s) {
        set = kung::union(set, hot[*pin as usize]);
    }
    set
}

// Writes for each input the set of its class alone.
fn heat(hot: &mut [u8], inputs: usize, buffer: &[u8])
    requires { (inputs ≤ length hot.old) × (inputs ≤ length buffer.now) }
    ensures { hot.new ≡ hots_of (take inputs buffer.now) ++ drop inputs hot.old }
{
    // by number: of bytes that are written through a `zip` a proof knows nothing
    for k in 0..inputs {
        hot[k] = kung::with_class(0, buffer[k]);
    }
}

// 1 where the set has a constant, `0` or `1`.
fn is_touched(set: u8) -> usize
    ensures { result ≡ bit (has set c0 || has set c1) }
{
    (set % 4 != 0) as usize
}

// Spreads the classes of the inputs, which the buffer's first bytes have, over the gates. Returned is the number of gates with a constant
// driver.
pub fn pass(rows: &[u16], inputs: usize, gates: usize, hot: &mut [u8], buffer: &mut [u8]) -> usize
    requires { Passable rows.now buffer.old (length hot.old) inputs gates }
    ensures { Passed rows.now buffer.old hot.old inputs gates buffer.new hot.new result }
{
    heat(hot, inputs, &*buffer);
    let mut touched: usize = 0;
    // by number: a gate's row, set and class stand in three places
    for gate in 0..gates {
        let s = inputs + gate;
        let set = pin_set(rows, s, &*hot);
        // the gates after this one wait for the set alone, not for the code
        let only = lookup::gate_set((rows::word_of(rows, s) % 4) as u8, set);
        hot[s] = only;
        buffer[s] = u8::trailing_zeros(only) as u8;
        touched += is_touched(set);
    }
    touched
}
