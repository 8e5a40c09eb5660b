// A filing with amendments is given alike with the filing of only its surviving cells (02:CR 6). Nothing runs here.
#![tactic(auto)]
