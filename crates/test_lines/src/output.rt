// Lines of text and numbers on standard output.
use form::sub_balances::{SCENARIOS, TOTALS_START};
use form_scenarios::Scenario;
use std::io;

// A piece of text as it stands.
pub fn text(rt: &impl Print, s: &[u8]) -> io::Result<()> {
    rt.write_all(s)
}

// A number in decimal.
fn number(rt: &impl Print, n: u64) -> io::Result<()> {
    rt.print(n)
}

// A space and a number.
pub fn next_number(rt: &impl Print, n: u64) -> io::Result<()> {
    text(rt, b" ")?;
    number(rt, n)
}

// The shift of a scenario, 0 to 6, in hundredths of a percent.
fn shift(rt: &impl Print, scenario: u64) -> io::Result<()> {
    if scenario < 3 {
        text(rt, b"-")?;
        number(rt, 100 * (3 - scenario))?;
    } else if scenario < Scenario::COUNT {
        number(rt, 100 * (scenario - 3))?;
    }
    Ok(())
}

// The four totals of each scenario, behind its shift, from the 568 numbers of a valued filing.
pub(crate) fn scenario_lines(rt: &impl Print, name: &[u8], numbers: &[u64]) -> io::Result<()> {
    if TOTALS_START <= numbers.len() {
        total_lines(rt, name, &numbers[TOTALS_START..])?;
    }
    Ok(())
}

// The same from a list of totals, four for each scenario.
pub fn total_lines(rt: &impl Print, name: &[u8], totals: &[u64]) -> io::Result<()> {
    for (scenario, four) in totals.chunks_exact(4).take(SCENARIOS).enumerate() {
        scenario_line(rt, name, scenario as u64, four)?;
    }
    Ok(())
}

// A line of a name, the shift of a scenario and numbers.
pub(crate) fn scenario_line(
    rt: &impl Print,
    name: &[u8],
    scenario: u64,
    numbers: &[u64],
) -> io::Result<()> {
    text(rt, name)?;
    shift(rt, scenario)?;
    rest_of_line(rt, numbers)
}

// The numbers of a list, each behind a space, and the line's end.
pub(crate) fn rest_of_line(rt: &impl Print, list: &[u64]) -> io::Result<()> {
    for n in list {
        next_number(rt, *n)?;
    }
    end_line(rt)
}

pub fn end_line(rt: &impl Print) -> io::Result<()> {
    text(rt, b"\n")
}
