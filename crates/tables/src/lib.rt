// Tables of cases for the calls on a book: each refusal at its boundary, and which of two comes first.
#![tactic(auto)]

#[cfg(test)]
mod asking;
#[cfg(test)]
mod batches;
#[cfg(test)]
mod books;
#[cfg(test)]
mod closings;
#[cfg(test)]
mod legs;
#[cfg(test)]
mod moving;
#[cfg(test)]
mod openings;
#[cfg(test)]
mod picky;
#[cfg(test)]
mod readings;
#[cfg(test)]
mod stopped;
