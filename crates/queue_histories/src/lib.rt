//! Histories of a queue of leaves under a lock: what the calls of many callers, in one order, made of the plain queue.
//! It has definitions and laws alone, and stands above the machine of a search, whose words for closed queues it uses.
#![tactic(auto)]

pub mod laws;
