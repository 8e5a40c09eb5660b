// Price lines on the command line: reads lines as bytes from standard input and prints what they reply to the month and the scenario that the two
// arguments name. One byte more than the 65,536 of an input is read, so that a longer one shows. An argument that is missing or has more than 4,096
// bytes is read as an empty one, which is no number.
#![tactic(auto)]

ghost use Rattle.std.specs.Prelude.{◌≤◌, length};

use std::env::Env;
use std::io;
use text_input::read_full;
use text_quote::write_read;

fn main(rt: HostRuntime) -> io::Result<()> {
    let mut month = [0u8; 4096];
    let month_size = read_argument(&rt, 1, &mut month);
    let mut scenario = [0u8; 4096];
    let scenario_size = read_argument(&rt, 2, &mut scenario);
    let mut input = [0u8; 65537];
    let n = read_full(&mut rt.stdin(), &mut input);
    let text = write_read(&input, n, &month[..month_size], &scenario[..scenario_size]);
    rt.write_all(text.as_slice())
}

// Puts an argument at the front of the bytes and answers how many it has, 0 where it is missing or there is no room for it.
fn read_argument(rt: &impl Env, i: usize, bytes: &mut [u8]) -> usize
    ensures { result ≤ length bytes.new }
{
    rt.arg(i, bytes).unwrap_or(0)
}
