// As yields rise values do not: certificates by the CD yields, borrowings by the LIBOR yields (02:CR 11). Nothing runs here.
#![tactic(auto)]
