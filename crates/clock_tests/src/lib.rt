// Tests of the clocks at both ends of every kind.
#![tactic(auto)]

#[cfg(test)]
mod calendar_chip;
#[cfg(test)]
mod counter;
#[cfg(test)]
mod instant;
#[cfg(test)]
mod laws;
#[cfg(test)]
mod layer;
#[cfg(test)]
mod steps;
#[cfg(test)]
mod vouching;
