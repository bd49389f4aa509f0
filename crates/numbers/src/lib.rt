// The numbers of a record's body, the least significant byte first. Every function is total: a byte past the body's end is 0.
#![tactic(auto)]

ghost use Rattle.std.specs.Prelude.{◌≡◌, ℕ, ◌+◌, ◌<◌, slice_index, get_or};
ghost use Rattle.numbers.specs.Numbers.{little_endian};

// Byte i of a body; 0 past its end. `words` reads a word by the same line: a crate for both would be no plainer.
fn octet(body: &[u8], i: usize) -> u8
    ensures { result ≡ get_or body.now i 0 }
{
    body.get(i).copied().unwrap_or(0)
}

// The N bytes of a body from i on; a byte past its end is 0.
fn octets<const N: usize>(body: &[u8], i: usize) -> [u8; N]
    ensures { (k : ℕ) → k < N → slice_index result k ≡ get_or body.now (i + k) 0 }
{
    let rest = &body[i.min(body.len())..];
    let mut bytes = [0; N];
    for (k, byte) in bytes.iter_mut().enumerate() {
        *byte = octet(rest, k);
    }
    bytes
}

// Byte i of a body as a number; 0 past its end.
pub fn byte_at(body: &[u8], i: usize) -> u32
    ensures { result ≡ get_or body.now i 0 }
{
    octet(body, i).into()
}

// The number of two bytes from i on.
pub fn two_at(body: &[u8], i: usize) -> u32
    ensures { result ≡ little_endian 2 body.now i }
{
    u16::from_le_bytes(octets(body, i)).into()
}

// The number of four bytes from i on.
pub fn four_at(body: &[u8], i: usize) -> u32
    ensures { result ≡ little_endian 4 body.now i }
{
    u32::from_le_bytes(octets(body, i))
}
