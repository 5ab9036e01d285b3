// Trials of the library on cases that can be counted by hand.
#![tactic(auto)]

#[cfg(test)]
mod accesses;
#[cfg(test)]
mod beds;
#[cfg(test)]
mod fills;
#[cfg(test)]
mod given;
#[cfg(test)]
mod large;
#[cfg(test)]
mod lists;
#[cfg(test)]
mod runs;
#[cfg(test)]
mod tally;
