// What holds of the cells that certificates fill, and closed cases of the definitions, proved about the definitions. Nothing runs here.
#![tactic(auto)]
