//! Tests of the commands and of nodes, by their top calls over files, sinks, links and journals in memory: what is
//! answered where something fails, and to files as long as they may be; and of the labels that code keeps. All that
//! real files can show stands in the examples.
#![tactic(auto)]

#[cfg(test)]
mod call;
#[cfg(test)]
mod code_labels;
#[cfg(test)]
mod files;
#[cfg(test)]
mod frames;
#[cfg(test)]
mod launches;
#[cfg(test)]
mod limits;
#[cfg(test)]
mod node;
#[cfg(test)]
mod node_beginnings;
#[cfg(test)]
mod node_parts;
#[cfg(test)]
mod node_refusals;
#[cfg(test)]
mod node_services;
#[cfg(test)]
mod outside;
#[cfg(test)]
mod releases;
#[cfg(test)]
mod rows;
#[cfg(test)]
mod seals_of_nodes;
