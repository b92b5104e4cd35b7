// Names and patterns of ports, and plans for handing out queued messages.
#![tactic(auto)]

pub mod word; // words between points
pub mod pattern; // whether a pattern matches a name
mod list; // lists of records
mod numbers; // whether a number is twice in a list
pub mod plan; // whether a plan hands out the waiting messages as it should
pub mod exports; // the calls for C

pub use pattern::{MatchError, matches};
pub use plan::{Fault, PAIRS_MAX, PairFault, PlanError, check_plan};
pub use word::{OCTETS_MAX, WORDS_MAX};
