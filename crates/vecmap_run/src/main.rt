//! Reads commands on a map from texts to numbers, one command a line, and writes one line for each.
#![tactic(auto)]

mod answer;
mod buffer;
mod bytes;
mod command;
mod line;
mod print;
mod serve;
mod status;

use serve::serve;
use status::status;
use std::io;
use std::process::ExitCode;

fn main(rt: HostRuntime) -> ExitCode {
    let mut reader = rt.reader();
    let mut writer = io::writer(&rt);
    status(serve(rt.alloc(), &mut reader, &mut writer))
}
