// A cache on any chip: bare, and working once it is formed or adopted.
#![tactic(auto)]

mod bare;
mod checks;
mod service;
mod working;

pub use bare::{BareCache, Permit};
pub use working::Cache;
