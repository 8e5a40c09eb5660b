// Unsigned little-endian numbers in a run of bytes. A byte past the end reads 0, so each position
// may be asked for.

// The number of `size` bytes that stands at a position.
pub fn number(s: &[u8], at: usize, size: usize) -> u64 {
    let rest = s.get(at..).unwrap_or(&[]);
    let bytes = rest.get(..size).unwrap_or(rest);
    bytes
        .iter()
        .rev()
        .fold(0, |n, byte| (n << 8) | u64::from(*byte))
}
