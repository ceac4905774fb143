//! Tests of the log of small sectors and its board, also on chips with program units or spare sectors.
#![tactic(auto)]

#[cfg(test)]
mod sector_costs;
#[cfg(test)]
mod sector_faults;
#[cfg(test)]
mod sector_sessions;
#[cfg(test)]
mod small_chips;
