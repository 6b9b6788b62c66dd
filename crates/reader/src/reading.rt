// Reading: the rows and the text of a value into lent memory, or a refusal that leaves it as it is (docs/FORMAT.md, 6.4).
ghost use Rattle.std.specs.Prelude.{◌≡◌};
ghost use Rattle.standard.specs.Outcomes as outcome;
ghost use Rattle.standard.specs.Outcomes.{level_default};
ghost use Rattle.reader.specs.InCode.{measured_is, extent_is};
ghost use Rattle.reader.specs.Measuring.{with_room};

use crate::measuring::Extent;
use crate::{filling, measuring};
use standard::limit;
use standard::refusal::{Reason, Refusal};

// What was measured, if there is room for so many rows and for so much text.
#[tactic(auto, unfolding(crate::specs::Measuring::with_room))]
fn with_room(extent: Extent, rows: usize, text: usize) -> Result<Extent, Refusal>
    ensures { measured_is result ≡ with_room rows text (extent_is extent) }
{
    if rows < extent.rows {
        return Err(Refusal {
            reason: Reason::RowsShort,
            place: 0,
        });
    }
    if text < extent.text {
        return Err(Refusal {
            reason: Reason::TextShort,
            place: 0,
        });
    }
    Ok(extent)
}

/// Reads the value at the front of the bytes into words, two to a row, and text, within a level limit. A lone last word is room for no row.
// The answer is known before anything is stored.
pub fn read_within(
    limit: usize,
    bytes: &[u8],
    words: &mut [u64],
    text: &mut [u8],
) -> Result<Extent, Refusal>
    ensures { (measured_is result ≡ (outcome.read limit bytes.now words.old text.old).answer)
        × (words.new ≡ (outcome.read limit bytes.now words.old text.old).words)
        × (text.new ≡ (outcome.read limit bytes.now words.old text.old).letters) }
{
    let measured = measuring::measure_within(limit, bytes)?;
    let extent = with_room(measured, words.len() / 2, text.len())?;
    filling::fill(bytes, words, text, extent.rows);
    Ok(extent)
}

/// The same within 16 levels.
// The form that names no limit: docs/PROMISES.md and C have both.
pub fn read(bytes: &[u8], words: &mut [u64], text: &mut [u8]) -> Result<Extent, Refusal>
    ensures { (measured_is result ≡ (outcome.read level_default bytes.now words.old text.old).answer)
        × (words.new ≡ (outcome.read level_default bytes.now words.old text.old).words)
        × (text.new ≡ (outcome.read level_default bytes.now words.old text.old).letters) }
{
    read_within(limit::DEFAULT, bytes, words, text)
}
