// The gate walk: it carries a lent netlist and hands back one gate record after the other. `record_at` does the reading, on plain
// parameters.
#![tactic(auto)]

ghost use Rattle.std.specs.Prelude.{◌≡◌, option_copied};
ghost use Rattle.walk.specs.Walk.{found_at, handed, stepped, opened, walk_at, step_of, start_of};

use netlist::Shape;
use refusals::Refusal;

#[derive(Clone, Copy)]
pub struct Walk<'a> {
    pub netlist: &'a [u8],
    pub number: usize,
    pub place: usize,
    pub count: usize,
}

// The record that comes next, of `count`, where `number` are handed back: the place past it. Any number and place may be asked for.
pub fn record_at(netlist: &[u8], number: usize, place: usize, count: usize) -> Option<usize>
    ensures { result ≡ found_at netlist.now number place count }
{
    if count <= number {
        return None;
    }
    if netlist.len() <= place {
        return None;
    }
    let pins = words::byte_at(netlist, place + 1) as usize;
    if records::is_unfit(netlist[place], pins) {
        return None;
    }
    let size = 2 + 2 * pins;
    if netlist.len() - place < size {
        return None;
    }
    Some(place + size)
}

impl<'a> Walk<'a> {
    // Hands back the next record and moves on, or gives none and stays. No Iterator's `next`: README promises it under this name.
    pub fn step(&mut self) -> Option<&'a [u8]>
        ensures { (option_copied result ≡ handed self.old) × (self.new ≡ stepped self.old) }
    {
        let past = record_at(self.netlist, self.number, self.place, self.count)?;
        let part = &self.netlist[self.place..past];
        self.number += 1;
        self.place = past;
        Some(part)
    }
}

// What opening gives: the walk, and the shape that the check gave.
#[derive(Clone, Copy)]
pub struct Opened<'a> {
    pub walk: Walk<'a>,
    pub shape: Shape,
}

// Checks a netlist and opens a walk of its records.
pub fn open<'a>(netlist: &'a [u8]) -> Result<Opened<'a>, Refusal>
    ensures { result ≡ opened netlist.entry }
{
    let shape = netlist::check(netlist)?;
    Ok(Opened {
        walk: Walk {
            netlist,
            number: 0,
            place: 11,
            count: shape.gates,
        },
        shape,
    })
}

// One step in numbers, as the library's callers are handed it: the bytes of the part, 0 for none, and the number and place reached.
#[derive(Clone, Copy)]
pub struct Stepped {
    pub length: usize,
    pub number: usize,
    pub place: usize,
}

// Makes a walk at any number and place and steps it.
pub fn step_at(netlist: &[u8], number: usize, place: usize, count: usize) -> Stepped
    ensures { result ≡ step_of (walk_at netlist.entry number place count) }
{
    let mut walk = Walk {
        netlist,
        number,
        place,
        count,
    };
    let length = walk.step().map_or(0, |part| part.len());
    Stepped {
        length,
        number: walk.number,
        place: walk.place,
    }
}

// Where an opened walk starts, and the shape that the check gave.
#[derive(Clone, Copy)]
pub struct Start {
    pub shape: Shape,
    pub number: usize,
    pub place: usize,
    pub count: usize,
}

// Opens a walk and says where it starts.
pub fn open_at(netlist: &[u8]) -> Result<Start, Refusal>
    ensures { result ≡ start_of (opened netlist.entry) }
{
    let opened = open(netlist)?;
    let walk = opened.walk;
    Ok(Start {
        shape: opened.shape,
        number: walk.number,
        place: walk.place,
        count: walk.count,
    })
}
