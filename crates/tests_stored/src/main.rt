//! Whether `drvhost` answers the command lines of stored groups as it is stored. Each answer that
//! differs is told with the first line in which it does, and of each group how many there are.
#![tactic(auto)]

mod answers;
mod groups;
mod texts;

use groups::go_through;
use std::{fs, io};

/// The names of the groups, each behind those whose texts it names.
const GROUPS: &str = "groups.txt";

fn main(rt: HostRuntime) -> io::Result<()> {
    let names = fs::read_to_string(&rt, GROUPS)?;
    let mut out = rt.stdout();
    for name in names.as_str().lines() {
        go_through(&rt, &rt, name, &mut out)?;
    }
    Ok(())
}
