// What the program prints, a piece at a time in a lent buffer: the first line, then the lines of as many changes as have room.
#![tactic(auto)]

ghost use Rattle.std.specs.Prelude.{◌<◌, length};
ghost use Rattle.listing.specs.Pieces.{piece_of, Written};

use jobs::Job;
use report::Text;

// The most bytes of the first line.
const LINE: usize = 64;

// The most bytes of a change's lines: 64 lines of at most 48 bytes.
const ROOM: usize = 3072;

// Where the next piece begins: at the first line, or at a change's lines. No Option: its cases are named states, of which neither is missing.
#[derive(Clone, Copy)]
pub enum Progress {
    Start,
    Change(usize),
}

// A piece in the buffer: its length, and where the next begins. An empty one is the last; it is no None, since it too says where the next would begin.
#[derive(Clone, Copy)]
pub struct Piece {
    pub length: usize,
    pub next: Progress,
}

fn put_first(netlist: &[u8], list: &[u8], buffer: &mut [u8]) -> Piece
    ensures { Written (piece_of netlist.now list.now (length buffer.old) Progress.Start) buffer.old buffer.new result }
{
    if buffer.len() < LINE {
        return Piece {
            length: 0,
            next: Progress::Start,
        };
    }
    let mut text = Text::new(buffer);
    lines::put_line(netlist, list, &mut text);
    Piece {
        length: text.len(),
        next: Progress::Change(0),
    }
}

// The lines of the changes from `from` on, until fewer bytes are left than a change may need. Of `known` a change fills the inputs' bytes alone, since
// the searches leave it as it was.
fn put_page(job: Job<'_>, from: usize, buffer: &mut [u8]) -> Piece
    requires { from < job.task.changes }
    ensures { Written (piece_of job.entry.netlist.now job.entry.list.now (length buffer.old) (Progress.Change from)) buffer.old buffer.new result }
{
    let task = job.task;
    let shape = task.shape;
    let signals = shape.inputs + shape.gates;
    let mut classes = [0u8; 2304];
    let mut known = [8u8; 2304];
    let mut text = Text::new(buffer);
    for change in from..task.changes {
        if text.room() < ROOM {
            return Piece {
                length: text.len(),
                next: Progress::Change(change),
            };
        }
        lines::classify(job, change, &mut classes);
        inputs::fill_inputs(job.list, task, change, &mut known);
        let wanted = wanted::wanted_sets(job.list, task.layout, change);
        lines::put_outputs(
            job.rows,
            shape,
            &wanted,
            &mut known[..signals],
            &classes,
            change,
            &mut text,
        );
    }
    Piece {
        length: text.len(),
        next: Progress::Change(task.changes),
    }
}

// The card is checked and decoded once for a piece.
fn put_changes(netlist: &[u8], list: &[u8], from: usize, buffer: &mut [u8]) -> Piece
    ensures { Written (piece_of netlist.now list.now (length buffer.old) (Progress.Change from)) buffer.old buffer.new result }
{
    let mut rows = [0u16; 20800];
    match changes::decode(netlist, list, &mut rows, true) {
        Ok(task) if from < task.changes => {
            let job = Job {
                netlist,
                list,
                task,
                rows: &rows,
            };
            put_page(job, from, buffer)
        }
        _ => Piece {
            length: 0,
            next: Progress::Change(from),
        },
    }
}

// Writes the next piece at the buffer's start: nothing more where all is printed, or where the buffer is too short for a piece.
pub fn next_piece(netlist: &[u8], list: &[u8], progress: Progress, buffer: &mut [u8]) -> Piece
    ensures { Written (piece_of netlist.now list.now (length buffer.old) progress) buffer.old buffer.new result }
{
    match progress {
        Progress::Start => put_first(netlist, list, buffer),
        Progress::Change(change) => put_changes(netlist, list, change, buffer),
    }
}
