// A netlist's records, one by one: what a kind byte means, and what is read of a record up to its pins.
#![tactic(auto)]

ghost use Rattle.std.specs.Prelude.{◌≡◌, ◌+◌, ◌≤◌, ◌<◌, length, slice_get};
ghost use Rattle.records.specs.Records.{unfit};
ghost use Rattle.records.specs.Meaning.{meaning_of, meaning_word, meaning_table};
ghost use Rattle.records.specs.Reading.{head_at, fit_at};

use refusals::Refusal;
use std::array;
use words::is_outside;

// What a kind byte means: how many pins it takes, its operation (0 AND, 1 OR) and whether it inverts. A byte that is no kind has limits
// that no pin count meets. The operation is a number and no enum: as a number it goes into the gate's word and into the tables.
#[derive(Clone, Copy)]
pub struct Meaning {
    pub least: usize,
    pub most: usize,
    pub operation: u8,
    pub inverts: bool,
}

#[tactic(auto, using(crate::proofs::Meanings::meant))]
pub fn meaning_of(kind: u8) -> Meaning
    ensures { result ≡ meaning_of kind }
{
    match kind {
        1..=2 => Meaning {
            least: 1,
            most: 1,
            operation: 0,
            inverts: kind == 1,
        },
        3..=4 => Meaning {
            least: 2,
            most: 8,
            operation: kind - 3,
            inverts: false,
        },
        5..=6 => Meaning {
            least: 2,
            most: 8,
            operation: kind - 5,
            inverts: true,
        },
        _ => Meaning {
            least: 1,
            most: 0,
            operation: 0,
            inverts: false,
        },
    }
}

// Whether a byte is no kind, or a kind that does not take so many pins.
#[tactic(auto, using(crate::proofs::Meanings::meaning_unfit))]
pub fn is_unfit(kind: u8, count: usize) -> bool
    ensures { result ≡ unfit kind count }
{
    let meaning = meaning_of(kind);
    is_outside(meaning.least, meaning.most, count)
}

// A meaning in one word.
fn meaning_word(meaning: Meaning) -> u16
    requires { (meaning.least ≤ 2) × (meaning.most ≤ 8) × (meaning.operation ≤ 1) }
    ensures { result ≡ meaning_word meaning }
{
    meaning.operation as u16
        + 2 * (meaning.inverts as u16)
        + 16 * (meaning.least as u16)
        + 256 * (meaning.most as u16)
}

// What a byte means, in one word.
fn byte_word(kind: usize) -> u16
    requires { kind < 8 }
    ensures { result ≡ meaning_word (meaning_of kind) }
{
    meaning_word(meaning_of(kind as u8))
}

// The words of the bytes 0 to 7, made once for a check: in its loop no jump depends on a kind.
pub fn meaning_table() -> [u16; 8]
    ensures { result ≡ meaning_table }
{
    array::from_fn(|kind| byte_word(kind))
}

// The word of a kind byte.
fn kind_word(meanings: &[u16; 8], kind: u8) -> Option<u16>
    requires { meanings.now ≡ meaning_table }
    ensures { result ≡ slice_get meaning_table kind }
{
    meanings.get(kind as usize).copied()
}

// A record up to its pins: how many there are, and its gate's word.
#[derive(Clone, Copy)]
pub struct Head {
    pub count: usize,
    pub word: u16,
}

#[tactic(auto, using(crate::proofs::Heads::told), unfolding(crate::specs::Reading::head_at, refusals::specs::Refusal::refuse))]
pub fn head_at(s: &[u8], meanings: &[u16; 8], at: usize) -> Result<Head, Refusal>
    requires { (meanings.now ≡ meaning_table) × (at ≤ length s.now + 11) }
    ensures { result ≡ head_at s.now at }
{
    if s.len() < at + 2 {
        return Err(Refusal::CutOff(at));
    }
    let second = at + 1;
    let count = s[second] as usize;
    let Some(meaning) = kind_word(meanings, s[at]) else {
        return Err(Refusal::Kind(at));
    };
    if meaning < 256 {
        return Err(Refusal::Kind(at));
    }
    if is_outside(
        (meaning / 16 % 16) as usize,
        (meaning / 256) as usize,
        count,
    ) {
        return Err(Refusal::PinCount(second));
    }
    if s.len() < at + 2 + 2 * count {
        return Err(Refusal::CutOff(at));
    }
    Ok(Head {
        count,
        word: meaning % 4 + 4 * (count as u16),
    })
}

// A record behind whose head eight words have room, where its head is not refused.
#[tactic(auto, using(crate::proofs::Heads::fits), unfolding(crate::specs::Reading::fit_at))]
pub fn fit_at(s: &[u8], meanings: &[u16; 8], at: usize) -> Option<Head>
    requires { (meanings.now ≡ meaning_table) × (at ≤ length s.now + 11) }
    ensures { result ≡ fit_at s.now at }
{
    if s.len() < at + 18 {
        return None;
    }
    let count = s[at + 1] as usize;
    let meaning = kind_word(meanings, s[at])? as usize;
    if is_outside(meaning / 16 % 16, meaning / 256, count) {
        return None;
    }
    Some(Head {
        count,
        word: (meaning % 4 + 4 * count) as u16,
    })
}
