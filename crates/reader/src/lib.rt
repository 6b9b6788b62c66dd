// The reader: bytes to a value table (docs/FORMAT.md, 4 to 6).
//
// Measuring goes over the value at the front of the bytes, makes every check, and finds how long it is and how many rows and
// bytes of text it reads to. Reading measures first, and refuses if the lent memory is too small, before anything is stored.
// Then one more pass over the bytes, which are now known to be well-formed, stores a row for each value and copies the text.
// What stands behind the value is not looked at.
#![tactic(auto)]

mod due;
mod filling;
mod measuring;
mod number;
mod reading;
pub mod walker;

pub use measuring::{Extent, measure, measure_within};
pub use reading::{read, read_within};
