// Trials of records and journals: a record by its bytes, damaged strips, and two journals of a
// client's own. Also rows of both keys, how large the tables are, and copies of both.
#![tactic(auto)]

#[cfg(test)]
mod counted;
#[cfg(test)]
mod leaf;
#[cfg(test)]
mod rows;
#[cfg(test)]
mod sizes;
#[cfg(test)]
mod tests;
