// The survival of a month under an annual withdrawal (01:51), from the table of all 601 figures.
mod survival_figures;

ghost use Rattle.std.specs.Prelude.{◌≡◌, ◌≤◌};
ghost use Rattle.form.specs.Limits.{withdrawal_limit};
ghost use Rattle.withdrawal.specs.Survival as spec;
ghost use Rattle.withdrawal.specs.Survival.{survival_figures};

// q of an annual withdrawal of w thousandths in billionths, from the figures, which the caller reads once.
pub(crate) fn survival(figures: &[u64; 601], w: u64) -> u64
    requires { (figures.now ≡ survival_figures) × (w ≤ withdrawal_limit) }
    ensures { result ≡ spec.survival w }
{
    figures[w as usize]
}

// All survival figures.
pub(crate) fn all_survivals() -> [u64; 601]
    ensures { result ≡ survival_figures }
{
    survival_figures::SURVIVAL
}
