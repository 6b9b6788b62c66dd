// Big-endian numbers of the widths of the format, in straight line.
ghost use Rattle.std.specs.Prelude.{◌≡◌, ◌+◌, ◌^◌, ◌≤◌, ◌<◌, T, length, take, drop};
ghost use Rattle.standard.specs.Bytes.{unbe};
ghost use Rattle.reader.specs.Entries.{narrow, usual};

// So many bytes from a place on.
fn part<const N: usize>(bytes: &[u8], at: usize) -> [u8; N]
    requires { at + N ≤ length bytes.now }
    ensures { result ≡ take N (drop at bytes.now) }
{
    bytes[at..at + N].try_into().unwrap()
}

// A number of one byte or of four, as every length, size and count is. The width is a number and no type of two cases: whoever calls
// adds it to a place.
pub(crate) fn narrow_at(bytes: &[u8], at: usize, width: usize) -> u64
    requires { T (narrow width) × (at + width ≤ length bytes.now) }
    ensures { (result ≡ unbe (take width (drop at bytes.now))) × (result < 2 ^ 32) }
{
    if width == 1 {
        return u64::from(bytes[at]);
    }
    u64::from(u32::from_be_bytes(part(bytes, at)))
}

// A number of any width of the format.
#[tactic(auto, unfolding(standard::specs::Bytes::spell), using(crate::proofs::Numbers::big_at))]
pub(crate) fn number_at(bytes: &[u8], at: usize, width: usize) -> u64
    requires { T (usual width) × (at + width ≤ length bytes.now) }
    ensures { result ≡ unbe (take width (drop at bytes.now)) }
{
    match width {
        0 => 0,
        2 => u64::from(u16::from_be_bytes(part(bytes, at))),
        8 => u64::from_be_bytes(part(bytes, at)),
        _ => narrow_at(bytes, at, width),
    }
}
