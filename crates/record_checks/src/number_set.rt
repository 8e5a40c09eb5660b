// A set of numbers below 65,536: a bit for each, 64 to a word.
ghost use Rattle.std.specs.Prelude.{◌≡◌};
ghost use Rattle.record_checks.specs.Members.{member, with_member};

// The words of a set.
pub const WORDS: usize = 1_024;

// The number is in the set.
pub(crate) fn holds(set: &[u64; WORDS], n: u16) -> bool
    ensures { result ≡ member set.now n }
{
    let i = (n / 64) as usize;
    (set[i] >> (n % 64)) % 2 == 1
}

// Puts a number into the set.
pub(crate) fn put(set: &mut [u64; WORDS], n: u16)
    ensures { set.new ≡ with_member set.old n }
{
    let i = (n / 64) as usize;
    set[i] = set[i] | (1 << (n % 64));
}
