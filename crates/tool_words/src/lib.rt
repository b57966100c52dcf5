// What the tool says, in words: refusals with their cause, places in a firmware text, the packets of a script and its
// entry address, and how it is used. It judges nothing by itself. Of printing, and of lines in words, safety alone is promised.
#![tactic(auto)]

pub mod cause;
pub mod entry;
pub mod lines;
pub mod packets;
pub mod place;
pub mod usage;
