//! Tests from texts and files to programs in their places, through the public calls of `js_base` to `msg_cost`: what
//! no command shows.
#![tactic(auto)]

#[cfg(test)]
mod changed_programs;
#[cfg(test)]
mod costs;
#[cfg(test)]
mod declared_principals;
#[cfg(test)]
mod files;
#[cfg(test)]
mod host_files;
#[cfg(test)]
mod label_reasons_told;
#[cfg(test)]
mod labels;
#[cfg(test)]
mod limits;
#[cfg(test)]
mod needs;
#[cfg(test)]
mod placed_programs;
#[cfg(test)]
mod printed_programs;
#[cfg(test)]
mod refused_programs;
#[cfg(test)]
mod starting_values;
#[cfg(test)]
mod tables;
#[cfg(test)]
mod texts;
#[cfg(test)]
mod tokens;
