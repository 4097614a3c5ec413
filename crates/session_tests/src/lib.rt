//! What no line of `player` can say: runs of a session over readers, writers and files that fail, what is flushed and appended
//! before a read, and the number of questions for a class after an edit.
#![tactic(auto)]

#[cfg(test)]
mod counting;
#[cfg(test)]
mod counts;
#[cfg(test)]
mod faulty;
#[cfg(test)]
mod journal;
#[cfg(test)]
mod logs;
#[cfg(test)]
mod running;
#[cfg(test)]
mod turns;
