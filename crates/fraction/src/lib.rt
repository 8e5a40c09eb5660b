// Exact fractions. Definitions and laws only: nothing runs here.
#![tactic(auto)]
