//! Tests of lists and of threads: lists of plays and of runs by threads agree, and their epochs put
//! what moved the nodes in an order; lists that must not agree; what a mirror of the nodes gives,
//! the images of the actors, and how a standby boots over them.
//!
//! Tests of pipes: calls over a pipe with stale replies, cut lines and failing ends; a round's
//! requests before its replies; and sessions of tagged lines.
//!
//! Tests of what no text shows: values that are shared, generated scripts, a summary, words as
//! bytes of the system, and a folder that isn't locked.
#![tactic(auto)]

#[cfg(test)]
mod agreeing;
#[cfg(test)]
mod boots;
#[cfg(test)]
mod copies;
#[cfg(test)]
mod draws;
#[cfg(test)]
mod generated;
#[cfg(test)]
mod images_left;
#[cfg(test)]
mod mirrors;
#[cfg(test)]
mod ordering;
#[cfg(test)]
mod pipes;
#[cfg(test)]
mod plays;
#[cfg(test)]
mod replayed;
#[cfg(test)]
mod running;
#[cfg(test)]
mod served;
#[cfg(test)]
mod shares;
#[cfg(test)]
mod side_by_side;
#[cfg(test)]
mod summaries;
#[cfg(test)]
mod threads;
#[cfg(test)]
mod two_threads;
#[cfg(test)]
mod words;
