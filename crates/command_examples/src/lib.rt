//! Examples of the command: rows that show that the definitions
//! say what is meant. They stand apart from the crates that they call, since a crate with tests is
//! proved twice.
#![tactic(auto)]

#[cfg(test)]
mod faults;
#[cfg(test)]
mod file_rows;
#[cfg(test)]
mod gates;
#[cfg(test)]
mod large;
#[cfg(test)]
mod live_gates;
#[cfg(test)]
mod live_rows;
#[cfg(test)]
mod rank_rows;
#[cfg(test)]
mod refused;
#[cfg(test)]
mod replies;
#[cfg(test)]
mod rows;
#[cfg(test)]
mod small_rows;
#[cfg(test)]
mod worked;
