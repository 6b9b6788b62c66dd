// Reads the first value of standard input, and prints its rows (docs/FORMAT.md, 8).
#![tactic(auto)]

ghost use Rattle.std.specs.Prelude.{◌≡◌, []};
ghost use Rattle.standard.specs.Outcomes.{level_most};
ghost use Rattle.standard.specs.Listing.{listing};

mod put;

use arrayvec::ArrayVec;
use put::Page;
use standard::limit;
use std::io;
use std::io::Read;

// The most bytes that are taken.
const INPUT_MOST: usize = 4096;

// One byte more, so that a longer input shows.
const INPUT_ROOM: usize = INPUT_MOST + 1;

// The most bytes of a row's line.
const LINE_MOST: usize = 45;

// The most bytes of a listing: no value has more rows than bytes, and there is one line more.
const OUTPUT_MOST: usize = (INPUT_MOST + 1) * LINE_MOST;

// Puts the listing of an input on an empty page. The page is lent, since it is copied where it is given back.
#[tactic(auto, using(crate::proofs::Shown::too_large))]
fn list(bytes: &[u8], page: &mut Page)
    requires { page.old.items ≡ [] }
    ensures { page.new.items ≡ listing level_most bytes.now }
{
    if INPUT_MOST < bytes.len() {
        put::put_bytes(page, b"input too large\n");
        return;
    }
    // arrays, since the program takes no memory but its stack
    let mut words = [0u64; 2 * INPUT_MOST];
    let mut text = [0u8; INPUT_MOST];
    match reader::read_within(limit::MOST, bytes, &mut words, &mut text) {
        Ok(extent) => {
            put::put_lines(page, &words[..2 * extent.rows]);
            put::put_end(page, extent.length);
        }
        Err(refusal) => put::put_refusal(page, refusal),
    }
}

fn main(rt: HostRuntime) -> io::Result<()> {
    let mut input = ArrayVec::<u8, INPUT_ROOM>::new();
    io::copy(&mut rt.reader().take(INPUT_ROOM as u64), &mut input)?;
    let mut page = Page::new();
    list(input.as_slice(), &mut page);
    rt.write_all(page.as_slice())
}
