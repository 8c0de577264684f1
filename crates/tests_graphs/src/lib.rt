//! Tests of all that is made of a list of statuses: its relations, three graphs, an order, the dead, and cycles; and of the graph below.
#![tactic(auto)]

#[cfg(test)]
mod answers;
#[cfg(test)]
mod digraphs;
#[cfg(test)]
mod orders;
#[cfg(test)]
mod rows;
