// Numbers in the bytes of a filing: unsigned, little-endian. A read past the end gives 0.
ghost use Rattle.std.specs.Prelude.{◌≡◌, ◌+◌, ◌^◌, ◌≤◌, ◌<◌, length, get_or};
ghost use Rattle.record_fields.specs.Bytes.{number_at};

// The number that the `width` bytes from `at` on spell.
pub(crate) fn number_at(s: &[u8], at: usize, width: usize) -> u64
    requires { width ≤ 8 }
    ensures { result ≡ number_at s.now at width }
{
    if s.len() <= at {
        return 0;
    }
    let mut value: u64 = 0;
    for i in (0..width).rev() {
        value = value * 256 + byte_at(s, at + i);
    }
    value
}

// The same, of bytes that lie before the end: eight as two halves, which the compiler reads at once.
pub(crate) fn number_within(s: &[u8], at: usize, width: usize) -> u64
    requires { (width ≤ 8) × (at + width ≤ length s.now) }
    ensures { (result ≡ number_at s.now at width) × (result < 256 ^ width) }
{
    if width == 8 {
        return run_within(s, at, 4) + 4_294_967_296 * run_within(s, at + 4, 4);
    }
    run_within(s, at, width)
}

// The same, byte by byte.
fn run_within(s: &[u8], at: usize, width: usize) -> u64
    requires { (width ≤ 8) × (at + width ≤ length s.now) }
    ensures { (result ≡ number_at s.now at width) × (result < 256 ^ width) }
{
    let mut value: u64 = 0;
    for i in (0..width).rev() {
        value = value * 256 + u64::from(s[at + i]);
    }
    value
}

// The byte at an index.
pub(crate) fn byte_at(s: &[u8], i: usize) -> u64
    ensures { result ≡ get_or s.now i 0 }
{
    if i < s.len() { u64::from(s[i]) } else { 0 }
}
