// Looks tried on small tables: days back, equal starts, a repeated hour, and both ends of time.
#![tactic(auto)]

#[cfg(test)]
mod tests;
