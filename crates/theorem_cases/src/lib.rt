// Closed cases of the definitions, proved by computation: the starred figures of document 01; the refusals and amendments of a filing, its rates by month and
// its coupons in thousandths; the tiers and the months left; what a place of a book takes. Nothing runs here.
#![tactic(auto)]
