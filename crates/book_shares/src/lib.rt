// A book that is set to the thirty-six shares of a filing (02:CR 7), and what it then shows. Nothing runs here.
#![tactic(auto)]
