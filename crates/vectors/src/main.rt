// Replays the stored cases of data/ and compares the answers. It prints each case that differs, and for each file how many cases it has
// and how many answers were right. Its exit status says nothing: what it prints is held to the file `stdout`.
#![tactic(auto)]

ghost use Rattle.std.specs.Prelude.{◌≤◌};

mod call;
mod due;
mod form;
mod lent;
mod reading;
mod writing;

use due::Score;
use std::fs;
use std::fs::File;
use std::os::unix::fs::FileExt;
use std::rt::Files;

// No file is longer.
const FILE_MOST: usize = 0x100_0000;

// How many cases there were, and how many of their answers were right.
#[derive(Clone, Copy)]
struct Tally {
    cases: usize,
    right: usize,
}

// The first line of what a file has from a place on. There is none at the file's end, or where the read fails.
fn line_at<'a>(file: &File, at: usize, buffer: &'a mut [u8]) -> Option<&'a [u8]> {
    let n = file.read_at(buffer, at as u64).unwrap_or(0);
    if n == 0 {
        return None;
    }
    buffer[..n].split(|byte| *byte == b'\n').next()
}

// A failed write is not looked at: what the program prints is then not what it should be.
fn print_difference(rt: &impl Print, name: &str, line: &[u8]) {
    for part in [name.as_bytes(), b" differs: ", line, b"\n"] {
        let _ = rt.write_all(part);
    }
}

// Replays a case, and prints it where it differs. How many of its answers are right: none where the line does not read.
fn replay_case<F: Fn(&[u8]) -> Option<Score>>(
    rt: &impl Print,
    name: &str,
    line: &[u8],
    case: &F,
) -> usize
    requires { F.IsAlwaysCallable case.now }
    ensures { result ≤ 2 }
{
    let score = case(line);
    if !score.is_some_and(|score| score.is_full()) {
        print_difference(rt, name, line);
    }
    score.map_or(0, |score| score.right)
}

// Replays all lines of a file, one after another. A line that is empty or begins with `#` is no case. The place goes on by hand, since the
// program takes no memory but its stack: each line is read anew, where it begins.
fn replay_lines<F: Fn(&[u8]) -> Option<Score>>(
    rt: &impl Print,
    name: &str,
    file: &File,
    case: &F,
) -> Tally
    requires { F.IsAlwaysCallable case.now }
{
    let mut at = 0;
    let mut all = Tally { cases: 0, right: 0 };
    while at < FILE_MOST {
        let mut buffer = io::buffer();
        let Some(line) = line_at(file, at, &mut buffer) else {
            break;
        };
        at += line.len() + 1;
        if line.first().is_some_and(|byte| *byte != b'#') {
            all.cases += 1;
            all.right += replay_case(rt, name, line, case);
        }
    }
    all
}

// Replays a file, and prints its cases and how many answers were right.
fn replay<F: Fn(&[u8]) -> Option<Score>, R: Files<File = File> + Print + Eprint>(
    rt: &R,
    name: &str,
    case: F,
)
    requires { F.IsAlwaysCallable case }
{
    let file = match fs::open(rt, name) {
        Ok(file) => file,
        Err(e) => {
            let _ = eprintln!(rt; "{name}: {e}");
            return;
        }
    };
    let Tally { cases, right } = replay_lines(rt, name, &file, &case);
    let _ = println!(rt; "{name} {cases} cases, {right} answers right");
}

fn main(rt: HostRuntime) {
    replay(&rt, "size.txt", writing::size_case);
    replay(&rt, "write.txt", writing::write_case);
    replay(&rt, "own_write.txt", writing::write_case);
    replay(&rt, "original.txt", writing::write_case);
    replay(&rt, "read.txt", reading::read_case);
    replay(&rt, "read_room.txt", reading::read_case);
    replay(&rt, "own_read.txt", reading::read_case);
    replay(&rt, "walk.txt", reading::walk_case);
    replay(&rt, "own_walk.txt", reading::start_case);
}
