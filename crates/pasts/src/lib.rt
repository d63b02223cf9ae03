// Pasts for which every premise of the promise holds: each policy, each kind of journal, with lapses, chains, refusals.
#![tactic(auto)]

#[cfg(test)]
mod plan;
#[cfg(test)]
mod shown;
#[cfg(test)]
mod twins;
