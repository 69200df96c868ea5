//! The planner as a program: it calls `tailplan` with the words of the process, the real files and the output.
#![tactic(auto)]

use run_frame::{NO_MEMORY, process_of};
use std::process::ExitCode;
use tailplan::solve_run;

fn main(rt: HostRuntime) -> ExitCode {
    let alloc = rt.alloc();
    let status = match process_of(alloc, "tailplan", rt) {
        Ok(mut process) => {
            let files = process.files;
            solve_run(alloc, &process.words, files, &mut process.out).status
        }
        Err(_) => NO_MEMORY,
    };
    ExitCode::from(status.0)
}
