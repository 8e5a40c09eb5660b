// A reader of a filing: it holds the filing's bytes and moves record by record. Whoever walks over the records asks it where the next one stands (`next_of`).
#![tactic(auto)]

mod steps;

ghost use Rattle.std.specs.Prelude.{◌≡◌, ◌<◌, length};
ghost use Rattle.record_fields.specs.Records.{next_record};
ghost use Rattle.record_reader.specs.Inner.Steps.{step_at};

use crate::steps::record_at;

// The bytes of a filing, and the offset of the record that the reader stands at.
#[derive(Clone, Copy, Debug)]
pub struct Reader<'a> {
    pub bytes: &'a [u8],
    pub offset: usize,
}

impl<'a> Reader<'a> {
    // A reader at the first record.
    pub(crate) fn new(bytes: &'a [u8]) -> Reader<'a>
        ensures { (result.bytes ≡ bytes.entry) × (result.offset ≡ 0) }
    {
        Reader { bytes, offset: 0 }
    }

    // The offset of the record after the one at the reader's offset: none where the reader is at the end, or past it.
    pub(crate) fn step(self) -> Option<usize>
        ensures { result ≡ step_at self.entry.bytes.now self.entry.offset }
    {
        record_at(self.bytes, self.offset)
    }

    // The reader of the same bytes at another offset.
    pub(crate) fn moved(self, offset: usize) -> Reader<'a>
        ensures { (result.bytes ≡ self.entry.bytes) × (result.offset ≡ offset) }
    {
        Reader {
            bytes: self.bytes,
            offset,
        }
    }
}

// The same of the record at an offset: a reader of the bytes is moved there, and says it.
fn step_at(s: &[u8], at: usize) -> Option<usize>
    ensures { result ≡ step_at s.now at }
{
    Reader::new(s).moved(at).step()
}

// The offset of the record after the one at an offset, as a reader there says.
pub fn next_of(s: &[u8], at: usize) -> usize
    requires { at < length s.now }
    ensures { result ≡ next_record s.now at }
{
    step_at(s, at).unwrap_or(at)
}
