//! Any record store beside the library's map: the same calls go to both, and every answer is compared. All of it is for the
//! tests, and none of it for other crates.

#![tactic(auto)]

#[cfg(test)]
mod backing;
#[cfg(test)]
mod drill;
#[cfg(test)]
mod plain;
#[cfg(test)]
mod tests;
