//! Tests of the card on boards without a link: the factory image, memories with changed words, failing power-ons and
//! commands, and memories of both formats that don't boot, on boards of 1,024 to 4,096 pages. `tools/tests/test-card`
//! migrates cards of format 1, and loses power at each write.
//! The fixtures are public, for the tests of the bench.
#![tactic(auto)]

#[cfg(test)]
mod cards;
#[cfg(test)]
mod faults;
pub mod fixtures;
#[cfg(test)]
mod pins;
#[cfg(test)]
mod refused;
#[cfg(test)]
mod standing;
#[cfg(test)]
mod starts;
#[cfg(test)]
mod tampered;
