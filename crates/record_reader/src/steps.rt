// A filing as a run of records.
ghost use Rattle.std.specs.Prelude.{◌≡◌};
ghost use Rattle.record_reader.specs.Inner.Steps.{step_at};

use record_fields::record_length;

// The offset of the record after the one at an offset: none at the end, or past it.
pub(crate) fn record_at(s: &[u8], at: usize) -> Option<usize>
    ensures { result ≡ step_at s.now at }
{
    if s.len() <= at {
        return None;
    }
    Some(at + 2 + record_length(s, at))
}
