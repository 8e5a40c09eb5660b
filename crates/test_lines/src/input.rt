// Little-endian numbers in an input.

// The number that the 8 bytes at a position spell, 0 where there are fewer.
pub fn number_at(s: &[u8], at: usize) -> u64 {
    match s.get(at..) {
        Some([a, b, c, d, e, f, g, h, ..]) => u64::from_le_bytes([*a, *b, *c, *d, *e, *f, *g, *h]),
        _ => 0,
    }
}
