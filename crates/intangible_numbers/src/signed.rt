// A run of signed numbers written into a list.
ghost use Rattle.std.specs.Prelude.{◌≡◌, ◌+◌, ◌≤◌, length};
ghost use Rattle.lists.specs.Runs.{written};

// Writes the numbers of `run` into `list` from index `at` on. The rest of the list is left as it was.
pub(crate) fn write_signed(list: &mut [i64], at: usize, run: &[i64])
    requires { at + length run.now ≤ length list.old }
    ensures { list.new ≡ written list.old at run.now }
{
    list[at..at + run.len()].copy_from_slice(run);
}
