//! The checker as a program: it calls `tailcheck` with the words of the process, the real files and the output.
#![tactic(auto)]

use run_frame::{NO_MEMORY, process_of};
use std::process::ExitCode;
use tailcheck::check_run;

fn main(rt: HostRuntime) -> ExitCode {
    let alloc = rt.alloc();
    let status = match process_of(alloc, "tailcheck", rt) {
        Ok(mut process) => {
            let files = process.files;
            check_run(alloc, &process.words, files, &mut process.out).status
        }
        Err(_) => NO_MEMORY,
    };
    ExitCode::from(status.0)
}
