// The writer: a value table to bytes (docs/FORMAT.md, 3). A port of serde_amqp's src/ser.rs.
//
// Sizing goes over the rows once, checks everything and finds the bytes that they take; beside that it leaves the sizes of the
// compounds that it meets, the marks, as far as there is room for them. Only when success is certain is the output touched: the
// marks go to the end of the region that will be written, and one pass over the rows writes each head and text and takes the marks
// as it comes to them. What is still to be written is never shorter than the marks that are still to be taken, so none is
// overwritten before its turn. A table with more compounds is gone over once more, without checks, to put its marks there.
#![tactic(auto)]

ghost use Rattle.std.specs.Prelude.{◌≡◌, ℕ, ◌-◌, ◌≤◌, ◌<◌, List, leb, length, take};
ghost use Rattle.standard.specs.Outcomes as outcome;
ghost use Rattle.standard.specs.Outcomes.{level_most, level_default};
ghost use Rattle.std.proofs.lemmas.List.Edits.{sets};
ghost use Rattle.standard.specs.Choose.{if};
ghost use Rattle.standard.specs.Tree.{Tree};
ghost use Rattle.standard.specs.Table as tables;
ghost use Rattle.writer.specs.Marks.{marks};
ghost use Rattle.writer.specs.Marking.{Markable, Tabled};
ghost use Rattle.writer.specs.Tables.{TableSized, SizedFor, Writable, bytes_in, near_most};
ghost use Rattle.writer.specs.InCode.{written_is};

mod filling;
mod head;
mod marking;
mod number;
mod put;
mod row;
mod sizing;

use row::{Table, refuse};
use sizing::Extent;
use standard::refusal::{Reason, Refusal};
use standard::{kind, limit};

// So many bytes of marks are kept beside the output: those of 200 compounds. They have fixed memory, since nothing here takes from the heap.
const NEAR: usize = 600;

// Sizes a whole table within a level limit, and leaves its marks where there is room for them.
fn size_table(limit: usize, table: &Table, marks: &mut [u8]) -> Result<Extent, Refusal>
    ensures { TableSized limit table.now.words.now table.now.text.now marks.old marks.new result }
{
    if !limit::is_in_force(limit) {
        return Err(refuse(Reason::LimitOutside, 0));
    }
    let n = table.words.len();
    if n % 2 == 1 {
        return Err(refuse(Reason::RowsAmiss, 0));
    }
    let e = sizing::size_values(table, 1, limit, marks, Extent::default())?;
    if 2 * e.row < n {
        return Err(refuse(Reason::RowsAmiss, e.row));
    }
    if e.text < table.text.len() {
        return Err(refuse(Reason::TextAmiss, n / 2));
    }
    if (kind::MOST as usize) < e.size {
        return Err(refuse(Reason::TooLong, 0));
    }
    Ok(e)
}

// The length of what would be written within a level limit.
#[tactic(auto, using(crate::proofs::Whole::fits_size, crate::proofs::Sums::handed_on))]
pub fn size_within(limit: usize, words: &[u64], text: &[u8]) -> Result<usize, Refusal>
    ensures { written_is result ≡ outcome.size limit words.now text.now }
{
    // no room for marks: they are for writing
    let mut marks = [0u8; 0];
    let all = size_table(limit, &Table { words, text }, &mut marks)?;
    Ok(all.size)
}

// The length of what would be written, within 16 levels. The form that names no limit: docs/PROMISES.md and C have both.
pub fn size(words: &[u64], text: &[u8]) -> Result<usize, Refusal>
    ensures { written_is result ≡ outcome.size level_default words.now text.now }
{
    size_within(limit::DEFAULT, words, text)
}

// Puts m bytes of marks to the end of n bytes, where they were kept near.
fn put_near(near: &[u8], n: usize, m: usize, out: &mut [u8])
    requires { (m ≤ n) × (n ≤ length out.old) }
    ensures { out.new ≡ if (leb m (length near.now)) (sets out.old (n - m) (take m near.now)) out.old }
{
    if m <= near.len() {
        put::put_text(out, n - m, near, 0, m);
    }
}

// Sizes a table for an output. If there is room for it, marks that are kept near are put to the end of its bytes.
#[tactic(auto, using(crate::proofs::Writes::marks_inside, crate::proofs::Writes::writable, crate::proofs::Writes::write_no, crate::proofs::Writes::write_short, crate::proofs::Writes::write_good, crate::proofs::Sums::handed_on))]
fn size_for(limit: usize, table: &Table, out: &mut [u8]) -> Result<Extent, Refusal>
    ensures { SizedFor limit table.now.words.now table.now.text.now out.old out.new result }
{
    let mut near = [0u8; NEAR];
    let e = size_table(limit, table, &mut near)?;
    if out.len() < e.size {
        return Err(refuse(Reason::OutputShort, 0));
    }
    put_near(&near, e.size, e.mark, out);
    Ok(e)
}

// Puts m bytes of marks to the end of n bytes by going over the rows, where they were too many to be kept near.
fn put_far(words: &[u64], n: usize, m: usize, out: &mut [u8])
    requires { (m ≤ n) × (near_most < m → Tabled words.now out.old (n - m)) }
    ensures { (m ≤ near_most → out.new ≡ out.old)
        × (near_most < m → (v : Tree) → Markable words.now out.old (n - m) v → out.new ≡ sets out.old (n - m) (marks v)) }
{
    if NEAR < m {
        marking::mark_table(words, out, n - m);
    }
}

// Writes a table of n bytes with m bytes of marks, which are at their place if they were kept near.
fn write_table(table: &Table, n: usize, m: usize, out: &mut [u8])
    requires { (before : List ℕ) × Writable table.now.words.now table.now.text.now n m before out.old }
    ensures { (before : List ℕ) → Writable table.now.words.now table.now.text.now n m before out.old
        → out.new ≡ sets before 0 (bytes_in (tables.table level_most table.now.words.now table.now.text.now)) }
{
    put_far(table.words, n, m, out);
    filling::fill(*table, out, n, n - m);
}

// Writes a table to the front of the output within a level limit, or refuses and leaves the output as it is.
#[tactic(auto, using(crate::proofs::Writes::parts, crate::proofs::Sums::handed_on))]
pub fn write_within(
    limit: usize,
    words: &[u64],
    text: &[u8],
    out: &mut [u8],
) -> Result<usize, Refusal>
    ensures { (written_is result ≡ (outcome.write limit words.now text.now out.old).answer)
        × (out.new ≡ (outcome.write limit words.now text.now out.old).out) }
{
    let table = Table { words, text };
    let e = size_for(limit, &table, out)?;
    write_table(&table, e.size, e.mark, out);
    Ok(e.size)
}

// Writes a table to the front of the output within 16 levels, or refuses and leaves the output as it is. The form that names no limit:
// docs/PROMISES.md and C have both.
pub fn write(words: &[u64], text: &[u8], out: &mut [u8]) -> Result<usize, Refusal>
    ensures { (written_is result ≡ (outcome.write level_default words.now text.now out.old).answer)
        × (out.new ≡ (outcome.write level_default words.now text.now out.old).out) }
{
    write_within(limit::DEFAULT, words, text, out)
}
