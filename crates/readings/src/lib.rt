// Trials of what is read: through piles of layers, into buffers, ahead, and in lists of calls.
#![tactic(auto)]

#[cfg(test)]
mod buffers;
#[cfg(test)]
mod given;
#[cfg(test)]
mod lists;
#[cfg(test)]
mod piles;
