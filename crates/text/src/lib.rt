// The text check: RFC 3629 for strings, ASCII for symbols (docs/FORMAT.md, 4.6).
#![tactic(auto)]

ghost use Rattle.std.specs.Prelude.{◌≡◌, [], ◌∷◌, ◌+◌, ◌-◌, ◌≤◌, leb, length, position, take, drop};
ghost use Rattle.std.specs.Bool.{then_some};
ghost use Rattle.standard.specs.Text.{from◌to◌, tail, utf8, ascii, lead_in, fault_in};
ghost use Rattle.standard.specs.Kinds.{flaw, good_length};
ghost use Rattle.text.specs.InCode.{fault_is};
ghost use Rattle.text.specs.Steps.{lead_is, stand, width_in, ascii_run};

use standard::kind::Kind;

// How many bytes the sequence has that a first byte begins.
// The second is from lo to hi, where those are named; all others are tails, 0x80 to 0xbf.
#[derive(Clone, Copy)]
enum Lead {
    One,
    Two,
    Three { lo: u8, hi: u8 },
    Four { lo: u8, hi: u8 },
}

// The table of RFC 3629, section 4. None for a byte that begins no sequence.
fn lead_of(byte: u8) -> Option<Lead>
    ensures { lead_is result ≡ lead_in utf8 byte }
{
    match byte {
        0x00..=0x7f => Some(Lead::One),
        0xc2..=0xdf => Some(Lead::Two),
        0xe0 => Some(Lead::Three { lo: 0xa0, hi: 0xbf }),
        0xe1..=0xec => Some(Lead::Three { lo: 0x80, hi: 0xbf }),
        0xed => Some(Lead::Three { lo: 0x80, hi: 0x9f }),
        0xee..=0xef => Some(Lead::Three { lo: 0x80, hi: 0xbf }),
        0xf0 => Some(Lead::Four { lo: 0x90, hi: 0xbf }),
        0xf1..=0xf3 => Some(Lead::Four { lo: 0x80, hi: 0xbf }),
        0xf4 => Some(Lead::Four { lo: 0x80, hi: 0x8f }),
        _ => None,
    }
}

// Whether a byte from lo to hi stands there.
fn byte_at(text: &[u8], at: usize, lo: u8, hi: u8) -> bool
    ensures { result ≡ stand (from◌to◌ lo hi ∷ []) (drop at text.now) }
{
    text.get(at).is_some_and(|byte| (lo..=hi).contains(byte))
}

// UTF8-tail.
fn tail_at(text: &[u8], at: usize) -> bool
    ensures { result ≡ stand (tail ∷ []) (drop at text.now) }
{
    byte_at(text, at, 0x80, 0xbf)
}

// Two bytes, where the second is a tail.
fn pair_width(text: &[u8]) -> Option<usize>
    ensures { result ≡ then_some (stand (tail ∷ []) (drop 1 text.now)) 2 }
{
    if tail_at(text, 1) { Some(2) } else { None }
}

// How many bytes the sequence has that stands at the front, if one does.
fn sequence_width(text: &[u8]) -> Option<usize>
    ensures { result ≡ width_in utf8 text.now }
{
    match lead_of(*text.first()?)? {
        Lead::One => Some(1),
        Lead::Two => pair_width(text),
        Lead::Three { lo, hi } => (byte_at(text, 1, lo, hi) && tail_at(text, 2)).then_some(3),
        Lead::Four { lo, hi } => {
            (byte_at(text, 1, lo, hi) && tail_at(text, 2) && tail_at(text, 3)).then_some(4)
        }
    }
}

// Whether all 16 bytes are ASCII: their highest tells.
// No byte ends the loop early, so that the compiler compares all 16 at once.
fn is_ascii(block: &[u8; 16]) -> bool
    ensures { result ≡ leb 16 (ascii_run block.now) }
{
    block.iter().fold(0, |top: u8, byte| top.max(*byte)) < 0x80
}

// Whether 16 bytes of ASCII stand at the front.
fn ascii_block(text: &[u8]) -> bool
    ensures { result ≡ leb 16 (ascii_run text.now) }
{
    text.first_chunk().is_some_and(|block| is_ascii(block))
}

// What stands behind the blocks of ASCII at the front.
// The loop has at its end what is asked for; `as_chunks` would count the blocks, and the rest be cut by their number.
fn past_blocks(text: &[u8]) -> &[u8]
    ensures part { length result.now ≤ length text.now }
    ensures run { length text.now - length result.now + ascii_run result.now ≡ ascii_run text.now }
{
    let mut rest = text;
    while ascii_block(rest) {
        rest = &rest[16..];
    }
    rest
}

// The first byte that is no ASCII.
fn first_other(text: &[u8]) -> Option<usize>
    ensures { result ≡ position (leb 0x80) text.now }
{
    text.iter().position(|byte| 0x80 <= *byte)
}

// How many bytes of ASCII stand at the front.
fn ascii_length(text: &[u8]) -> usize
    ensures { result ≡ ascii_run text.now }
{
    let rest = past_blocks(text);
    let end = first_other(rest).unwrap_or(rest.len());
    text.len() - rest.len() + end
}

// The first fault of a string: the first byte at which, after correct sequences from the start, none begins.
pub fn utf8_fault(text: &[u8]) -> Option<usize>
    ensures { fault_is result ≡ fault_in utf8 text.now }
{
    let mut rest = text;
    while let Some(first) = rest.first() {
        let good = if *first < 0x80 {
            Some(ascii_length(rest))
        } else {
            sequence_width(rest)
        };
        let Some(length) = good else {
            return Some(text.len() - rest.len());
        };
        rest = &rest[length..];
    }
    None
}

// The first fault of a symbol.
pub fn ascii_fault(text: &[u8]) -> Option<usize>
    ensures { fault_is result ≡ fault_in ascii text.now }
{
    let end = ascii_length(text);
    (end < text.len()).then_some(end)
}

// The first fault of a row's text, by the number of the row's kind, whatever that is: strings are UTF-8, symbols ASCII, and all other text is any bytes.
#[tactic(auto, unfolding(standard::specs::Kinds::flaw))]
pub fn flaw_of(kind: u64, text: &[u8]) -> Option<usize>
    ensures { fault_is result ≡ flaw kind text.now }
{
    if kind == u64::from(Kind::String) {
        return utf8_fault(text);
    }
    if kind == u64::from(Kind::Symbol) {
        return ascii_fault(text);
    }
    None
}

// Of so many bytes from `start` on, which are a row's text of that kind, how many are good: all, or those before the first fault.
// Where the text has fewer bytes there, it is of those.
// 16 bytes of ASCII are good for every kind: where they stand there, a short text needs no look at its own end.
#[tactic(auto, using(crate::proofs::Parts::block_good, crate::proofs::Parts::past_good))]
pub fn good_length(kind: u64, text: &[u8], start: usize, count: usize) -> usize
    ensures { result ≡ good_length kind (take count (drop start text.now)) }
{
    let Some(rest) = text.get(start..) else {
        return 0;
    };
    if count <= 16 && ascii_block(rest) {
        return count;
    }
    let part = &rest[..count.min(rest.len())];
    flaw_of(kind, part).unwrap_or(part.len())
}
