// The rate scenarios (01:48).
#![tactic(auto)]

ghost use Rattle.std.specs.Prelude.{◌≡◌};
ghost use Rattle.form.specs.Shift.{shifted_rate, shifted_rates};

use form::sub_balances::SCENARIOS;

// A scenario by its number: its shift is that many steps above the lowest, and the middle one leaves rates as they are.
#[derive(Clone, Copy)]
pub struct Scenario {
    pub number: u8,
}

impl Scenario {
    // How many scenarios there are.
    pub const COUNT: u64 = SCENARIOS as u64;
    // From one scenario's shift to the next, in hundredths of a percent a year.
    pub const STEP: u64 = 100;

    pub fn new(number: u8) -> Self
        ensures { result.number ≡ number }
    {
        Self { number }
    }

    // A yield or retail rate under the scenario, in hundredths of a percent a year: a result below 0 counts as 0.
    pub fn shifted(self, rate: u16) -> u64
        ensures { result ≡ shifted_rate self.number rate }
    {
        let raised = rate as u64 + Self::STEP * self.number as u64;
        let middle = Self::STEP * (Self::COUNT - 1) / 2;
        if raised < middle { 0 } else { raised - middle }
    }
}

// A yield or retail rate under each of the scenarios.
pub fn shifted_rates(rate: u16) -> [u64; SCENARIOS]
    ensures { result ≡ shifted_rates rate }
{
    std::array::from_fn(|i| Scenario::new(i as u8).shifted(rate))
}
