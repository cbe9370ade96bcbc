// Tests of the layout, the stores and the image codec.
#![tactic(auto)]

#[cfg(test)]
mod codec;
#[cfg(test)]
mod layouts;
#[cfg(test)]
mod lent;
#[cfg(test)]
mod plain;
#[cfg(test)]
mod sizes;
#[cfg(test)]
mod values;
