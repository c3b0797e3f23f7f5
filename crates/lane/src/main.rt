// The program: reads a card and its list of changes, and writes what is printed, piece by piece. No contract can see what is read or written, so
// that the files are these two and that each piece is written is left to tests/program.
#![tactic(auto)]

ghost use Rattle.std.specs.Prelude.{◌≡◌, ◌≤◌, length, take};

use listing::Progress;
use std::fs::File;
use std::io::Read;
use std::{fs, io};

// The next bytes of an open file: none at its end, or where it cannot be read.
fn read_some(file: &mut File, buffer: &mut [u8]) -> usize
    ensures { result ≤ length buffer.new }
{
    file.read(buffer).unwrap_or(0)
}

// Reads the first bytes of a file, as many as the buffer holds: none where it is missing or cannot be read.
fn read_start(rt: &HostRuntime, path: &str, buffer: &mut [u8]) -> usize
    ensures bound { result ≤ length buffer.new }
    ensures prefix { result ≡ length (take result buffer.new) }
{
    let Ok(mut file) = fs::open(rt, path) else {
        return 0;
    };
    let mut done = 0;
    // a `while`: each turn adds as many bytes as came, which no `for` or iterator counts
    while done < buffer.len() {
        let n = read_some(&mut file, &mut buffer[done..]);
        if n == 0 {
            break;
        }
        done += n;
    }
    done
}

// A write that fails ends the program with a line on standard error, where it writes nothing else.
fn main(rt: HostRuntime) -> io::Result<()> {
    // fixed buffers: of a file longer than this the rest is not read
    let mut netlist = [0u8; 65536];
    let n = read_start(&rt, "lane.lcn", &mut netlist);
    let mut list = [0u8; 65536];
    let l = read_start(&rt, "lane.lct", &mut list);
    let mut buffer = [0u8; 65536];
    let mut progress = Progress::Start;
    loop {
        let piece = listing::next_piece(&netlist[..n], &list[..l], progress, &mut buffer);
        let length = piece.length;
        if length == 0 {
            return Ok(());
        }
        if rt.stdout().write_all(&buffer[..length]).is_err() {
            return rt.stderr().write_all(b"lane: cannot write\n");
        }
        progress = piece.next;
    }
}
