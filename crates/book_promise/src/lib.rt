// The changes of a standing book (02:CR 7), its promise and the laws of it. Nothing runs here.
#![tactic(auto)]
