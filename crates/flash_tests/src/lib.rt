//! Tests of the board on a flash that leaves garbage, of chips with program units or worn sectors, and of a card that
//! forgets.
#![tactic(auto)]

#[cfg(test)]
mod arrays;
#[cfg(test)]
mod forgetting;
#[cfg(test)]
mod many_pages;
#[cfg(test)]
mod renewals;
#[cfg(test)]
mod sessions;
#[cfg(test)]
mod worn_sectors;
#[cfg(test)]
mod worn_units;
