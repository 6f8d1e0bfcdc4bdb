//! `persist`: the real streams and the site of a run, the top call, and its status as the process's exit code.
//!
//! Seen as: the arguments, standard input and standard output, over a disk in memory.
//! Keeps: nothing of its own; what a run does is `run_steps` (cluster_cli). What was wrong with the arguments or a line is
//!   printed on standard error, which no clause speaks of.
//! Hides: that arguments which aren't text plan no run.
//! Not here: how the program is proved, built and run unproved (the launcher ./persist).
#![tactic(auto)]

use cluster_cli::{StandardSink, StandardSource, run_steps};
use plan_site::memory_site;
use std::env;
use std::io::ErrorKind;
use std::process::ExitCode;

/// The exit code where memory runs out.
const NO_MEMORY: u8 = 5;

fn main(rt: HostRuntime) -> ExitCode {
    let alloc = rt.alloc();
    let mut words = Vec::new(alloc);
    let mut are_text = true;
    match env::args(&rt) {
        Ok(arguments) => {
            for word in arguments.skip(1) {
                if words.push(word).is_err() {
                    return ExitCode::from(NO_MEMORY);
                }
            }
        }
        Err(fault) if fault.kind() == ErrorKind::OutOfMemory => return ExitCode::from(NO_MEMORY),
        // No arguments plan no run, and neither do arguments that aren't text.
        Err(_) => are_text = false,
    }
    let words = words.as_slice();
    let Ok(site) = memory_site(alloc, words) else {
        return ExitCode::from(NO_MEMORY);
    };
    let mut source = StandardSource::new(&rt);
    let mut sink = StandardSink::new(&rt);
    let ended = run_steps(&rt, alloc, words, &mut source, &mut sink, site);
    // The status says that something was wrong, also where this can't be printed.
    if !are_text {
        let _ = eprintln!(rt; "persist: an argument is not UTF-8");
    } else if let Some(reason) = ended.reason {
        let _ = eprintln!(rt; "persist: {reason}");
    }
    ExitCode::from(ended.status)
}
