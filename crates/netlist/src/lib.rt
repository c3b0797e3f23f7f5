// Card netlists: the check with its refusals, which decodes the card into rows on the way.
#![tactic(auto)]

ghost use Rattle.std.specs.Prelude.{◌≡◌, ◌+◌, ◌*◌, ◌≤◌, length};
ghost use Rattle.words.specs.Words.{words_at};
ghost use Rattle.making.specs.Making.{put_at};
ghost use Rattle.netlist.specs.Netlist.{inputs_of, gates_of, entries_at};
ghost use Rattle.netlist.specs.Netlist.{counts, outputs, accepted, body, body_within, checked};
ghost use Rattle.netlist.specs.Decoded.{rows_from, with_outputs, decoded_by, decoded};

use refusals::Refusal;
use words::{is_outside, word_at, word_in};

// What an accepted netlist gives: the counts, the pins together and the place of the output entries.
#[derive(Clone, Copy)]
pub struct Shape {
    pub inputs: usize,
    pub gates: usize,
    pub outputs: usize,
    pub pins: usize,
    pub entries: usize,
}

// Writes the words from a place of the bytes on, where they have room.
#[tactic(auto, using(crate::proofs::Keeping::copies))]
fn keep_words(s: &[u8], rows: &mut [u16], at: usize, count: usize, base: usize)
    requires { (at + 2 * count ≤ length s.now) × (count ≤ 65535) × (base ≤ 1179630) }
    ensures { rows.new ≡ put_at rows.old base (words_at count s.now at) }
{
    if rows.len() < base + count {
        return;
    }
    // by index: nothing is known of what is written through an `iter_mut` beside another iterator
    for k in 0..count {
        rows[base + k] = word_in(s, at + 2 * k);
    }
}

// The check from the output entries on. The outputs are kept where nothing is refused. Before the entries stand two bytes for each gate and each pin.
#[tactic(auto, using(crate::proofs::Entries::entries), unfolding(crate::specs::Decoded::with_outputs))]
fn check_outputs(s: &[u8], rows: &mut [u16], at: usize) -> Result<Shape, Refusal>
    requires { (at ≡ entries_at s.now) × (at ≤ length s.now + 11) }
    ensures value { result ≡ outputs s.now (accepted s.now) }
    ensures rows_after { rows.new ≡ with_outputs (outputs s.now (accepted s.now)) s.now rows.old }
{
    let inputs = word_at(s, 5) as usize;
    let gates = word_at(s, 7) as usize;
    let outputs = word_at(s, 9) as usize;
    let end = at + 2 * outputs;
    if s.len() < end {
        return Err(Refusal::CutOff(at));
    }
    // by number: a refusal says the entry's place
    for k in 0..outputs {
        let place = at + 2 * k;
        if inputs + gates <= word_in(s, place) as usize {
            return Err(Refusal::Entry(place));
        }
    }
    if end < s.len() {
        Err(Refusal::BytesLeft(end))
    } else {
        keep_words(s, rows, at, outputs, 9 * (inputs + gates));
        Ok(Shape {
            inputs,
            gates,
            outputs,
            pins: (at - 11) / 2 - gates,
            entries: at,
        })
    }
}

// The check from the records on. A record's pins are looked at together where eight have room, and one after the other where they have not or where
// one is refused.
#[tactic(auto, using(records::proofs::Heads::head_told, records::proofs::Heads::fit_head))]
fn check_records(s: &[u8], rows: &mut [u16], repeated: bool) -> Result<Shape, Refusal>
    requires { (inputs_of s.now ≤ 256) × (gates_of s.now ≤ 2048) }
    ensures value { result ≡ body s.now }
    ensures rows_after { rows.new ≡ with_outputs (body s.now) s.now (rows_from repeated (gates_of s.now) 0 s.now rows.old) }
{
    let inputs = word_at(s, 5) as usize;
    let signals = inputs + word_at(s, 7) as usize;
    let meanings = records::meaning_table();
    let mut signal = inputs;
    let mut at: usize = 11;
    // not a `for` over the signals, which could not end with an answer
    'records: loop {
        if signal == signals {
            break 'records check_outputs(s, rows, at);
        }
        if let Some(head) = records::fit_at(s, &meanings, at) {
            let own = making::own_in(s, at + 2, head.count);
            if making::are_below(own, signal as u16) {
                let row = making::row_in(s, at + 2, head.count, repeated);
                making::keep_row(rows, signal, row, head.word);
                at = at + 2 + 2 * head.count;
                signal += 1;
                continue 'records;
            }
        }
        let head = records::head_at(s, &meanings, at)?;
        'pins: for k in 0..head.count {
            let place = at + 2 + 2 * k;
            if signal as u16 <= word_in(s, place) {
                break 'records Err(Refusal::Pin(place));
            }
        }
        let row = making::row_short(s, at + 2, head.count, repeated);
        making::keep_row(rows, signal, row, head.word);
        at = at + 2 + 2 * head.count;
        signal += 1;
    }
}

// The check from the counts on.
#[tactic(auto, using(crate::proofs::Keeping::counted), unfolding(crate::specs::Netlist::counts, refusals::specs::Refusal::refuse, crate::specs::Decoded::decoded_by, crate::specs::Decoded::early, crate::specs::Decoded::with_outputs))]
fn check_counts(s: &[u8], rows: &mut [u16], repeated: bool) -> Result<Shape, Refusal>
    ensures value { result ≡ counts s.now (body_within 2304 s.now) }
    ensures rows_after { rows.new ≡ decoded_by repeated (counts s.now (body_within 2304 s.now)) s.now rows.old }
{
    if is_outside(1, 256, word_at(s, 5) as usize) {
        return Err(Refusal::Count(5));
    }
    if is_outside(0, 2048, word_at(s, 7) as usize) {
        return Err(Refusal::Count(7));
    }
    if is_outside(1, 64, word_at(s, 9) as usize) {
        return Err(Refusal::Count(9));
    }
    check_records(s, rows, repeated)
}

// The check of a netlist, whose rows are kept as far as it goes and they have room. A gate's last pin is repeated where that is asked for, which costs
// time: the gate pass needs it, a search does not.
#[tactic(auto, using(std::proofs::lemmas::Bool::Decides::nat_tests), unfolding(crate::specs::Netlist::checked, crate::specs::Netlist::checked_within, crate::specs::Netlist::opening, refusals::specs::Refusal::refuse, crate::specs::Decoded::decoded, crate::specs::Decoded::decoded_by, crate::specs::Decoded::early, crate::specs::Decoded::with_outputs))]
pub fn decode(s: &[u8], rows: &mut [u16], repeated: bool) -> Result<Shape, Refusal>
    ensures value { result ≡ checked s.now }
    ensures rows_after { rows.new ≡ decoded repeated s.now rows.old }
{
    if s.len() < 11 {
        return Err(Refusal::NetlistShort(s.len()));
    }
    if !words::is_marked(s, b"LCN") {
        return Err(Refusal::NetlistMark);
    }
    if word_at(s, 3) != 1 {
        return Err(Refusal::NetlistVersion);
    }
    check_counts(s, rows, repeated)
}

// The check alone.
pub fn check(s: &[u8]) -> Result<Shape, Refusal>
    ensures { result ≡ checked s.now }
{
    decode(s, &mut [], false)
}

// How many signals a netlist says that it has, whatever the bytes are.
pub fn signals_in(s: &[u8]) -> usize
    ensures { result ≡ inputs_of s.now + gates_of s.now }
{
    word_at(s, 5) as usize + word_at(s, 7) as usize
}
