// Tests of the engine, its edits, its work orders, and histories.
#![tactic(auto)]

#[cfg(test)]
mod edits;
#[cfg(test)]
mod full;
#[cfg(test)]
mod parties;
#[cfg(test)]
mod rules;
#[cfg(test)]
mod sample;
#[cfg(test)]
mod work_orders;
