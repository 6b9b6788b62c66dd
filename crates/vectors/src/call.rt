// The entry points of the writer and of the reader, each in either form: with a level limit named, or with none.
// Each function is a choice between two entry points of its own: one function for all would be told both, at every call.
use reader::walker::Span;
use reader::{Extent, walker};
use standard::refusal::Refusal;

pub(crate) fn size(named: Option<usize>, words: &[u64], text: &[u8]) -> Result<usize, Refusal> {
    match named {
        Some(limit) => writer::size_within(limit, words, text),
        None => writer::size(words, text),
    }
}

pub(crate) fn write(
    named: Option<usize>,
    words: &[u64],
    text: &[u8],
    out: &mut [u8],
) -> Result<usize, Refusal> {
    match named {
        Some(limit) => writer::write_within(limit, words, text, out),
        None => writer::write(words, text, out),
    }
}

pub(crate) fn measure(named: Option<usize>, bytes: &[u8]) -> Result<Extent, Refusal> {
    match named {
        Some(limit) => reader::measure_within(limit, bytes),
        None => reader::measure(bytes),
    }
}

pub(crate) fn read(
    named: Option<usize>,
    bytes: &[u8],
    words: &mut [u64],
    text: &mut [u8],
) -> Result<Extent, Refusal> {
    match named {
        Some(limit) => reader::read_within(limit, bytes, words, text),
        None => reader::read(bytes, words, text),
    }
}

pub(crate) fn step(named: Option<usize>, bytes: &[u8], at: usize) -> Result<Option<Span>, Refusal> {
    match named {
        Some(limit) => walker::step_within(limit, bytes, at),
        None => walker::step_at(bytes, at),
    }
}
