// Room for the longest inputs, and for one byte or one step more, so that what is too long is seen.
#![tactic(auto)]

// Room for a firmware text one byte longer than any that is read, so that a longer one is seen.
pub const TEXT: usize = 1048577;

// Room for a script one byte longer than any that is checked, so that a longer one is seen, and for every
// one that is planned.
pub const SCRIPT: usize = 2097153;

// Room for a region one step longer than the longest, so that its size too can be asked for.
pub const REGION: usize = 266240;

// Room for the known bits of such a region, a bit for each of its bytes.
pub const KNOWN: usize = 33280;
