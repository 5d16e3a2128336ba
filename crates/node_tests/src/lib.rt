//! Tests of what no text shows: a real folder and its lock, the standard ends of a program, the
//! order in which a session asks and answers, a disk that is lent, and the ring of newest edits.
#![tactic(auto)]

#[cfg(test)]
mod ends;
#[cfg(test)]
mod fake;
#[cfg(test)]
mod folders;
#[cfg(test)]
mod lent;
#[cfg(test)]
mod locks;
#[cfg(test)]
mod opened;
#[cfg(test)]
mod rings;
#[cfg(test)]
mod sessions;
