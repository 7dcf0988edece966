// Whether the user of a program asks for help.
use std::{env, io};

// By the first word on the command line.
pub fn is_help_wanted(rt: &HostRuntime) -> io::Result<bool> {
    let wanted = env::args(rt)?.nth(1);
    Ok(wanted.is_some_and(|word| word.as_str() == "--help" || word.as_str() == "-h"))
}
