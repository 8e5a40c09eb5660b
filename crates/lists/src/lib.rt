// Sums and tables of lists as definitions and laws; a run of numbers written into a list.
#![tactic(auto)]

ghost use Rattle.std.specs.Prelude.{◌≡◌, ◌+◌, ◌≤◌, length};
ghost use Rattle.lists.specs.Runs.{written};

// Writes the numbers of `run` into `list` from index `at` on. The rest of the list is left as it was.
pub fn write(list: &mut [u64], at: usize, run: &[u64])
    requires { at + length run.now ≤ length list.old }
    ensures { list.new ≡ written list.old at run.now }
{
    list[at..at + run.len()].copy_from_slice(run);
}
