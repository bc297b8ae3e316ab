//! Words of lists and of truth values that the layers above share, with what follows of them: facts of each
//! item, items among others, sums over items, how often a number stands in a list. There is no code; std's
//! own words come first.
//!
//! `specs/Counts.antt` has the definitions: `total` adds up a number of each item, `Each` is a fact of each
//! item, `Among` says that something is one of the items, and `times` tells how often a number stands in a
//! list. `proofs/` has the lemmas, a file a subject: truth values and tests of numbers (`Truth`), what a list
//! contains (`Elements`), facts of each item (`Each`), how often a number occurs (`Times`), and sums
//! (`Totals`).
//!
//! There is no call and no contract, so nothing can fail and nothing is promised but what the lemmas state.
#![tactic(auto)]
