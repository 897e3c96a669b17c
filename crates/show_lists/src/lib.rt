// Lists of commands: the words of a line, what is counted of the commands, the status of it all, and how far the work is. Working a list off is for `show_files`; here is what that needs, with few crates below it.
#![tactic(auto)]

pub mod progress;
pub mod tally;
pub mod words;
