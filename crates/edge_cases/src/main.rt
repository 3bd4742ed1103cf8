//! Prints the results of reading recorded files of machines: first the machine of each recording and the lines that
//! are left out of it, then the contents of the files of names, the hosts and ports in texts that people write, and
//! which addresses are globally reachable, and which targets the rules of a proxy allow.
//!
//! It reads the folder in which it is started. It is proved only to be safe and to end.
#![tactic(auto)]

mod files;
mod hosts;
mod names;
mod reached;
mod ruled;
mod ways;
mod written;

fn main(rt: HostRuntime) -> std::io::Result<()> {
    hosts::show_hosts(&rt)?;
    names::show_names(&rt)?;
    written::show_written(&rt)?;
    reached::show_addresses(&rt)?;
    ruled::show_rules(&rt)
}
