// Numbers in the bytes of a slice, the lowest first, read and put at a place (docs/MACHINE.md, 14).
#![tactic(auto)]

ghost use Rattle.std.specs.Prelude.{◌≡◌, ◌+◌, ◌^◌, ◌≤◌, ◌<◌, length};
ghost use Rattle.model.specs.Sequence.{write_at};
ghost use Rattle.records.specs.Little.{BYTE, little, bytes_of};

// The most bytes of a number.
const BYTES: usize = 8;

// The number that N bytes make from a place on.
pub fn read<const N: usize>(bytes: &[u8], at: usize) -> u64
    requires width { N ≤ BYTES }
    requires room { at + N ≤ length bytes.now }
    ensures { (result ≡ little N bytes.now at) × (result < BYTE ^ N) }
{
    let mut number = [0; BYTES];
    number[..N].copy_from_slice(&bytes[at..at + N]);
    u64::from_le_bytes(number)
}

// The N lowest bytes of a number, from a place on.
pub fn put<const N: usize>(bytes: &mut [u8], at: usize, number: u64)
    requires width { N ≤ BYTES }
    requires room { at + N ≤ length bytes.old }
    ensures { bytes.new ≡ write_at bytes.old at (bytes_of N number) }
{
    let lowest = number.to_le_bytes();
    bytes[at..at + N].copy_from_slice(&lowest[..N]);
}
