// Tests of what a look and a check go by: refusals, ranks, dates, forms of orders, cells and faults.
#![tactic(auto)]

#[cfg(test)]
mod cells;
#[cfg(test)]
mod dates;
#[cfg(test)]
mod faults;
#[cfg(test)]
mod forms;
#[cfg(test)]
mod ranks;
#[cfg(test)]
mod refusals;
