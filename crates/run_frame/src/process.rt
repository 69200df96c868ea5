//! What a process is given: its words, the real files and its output. This is where a run meets the system, and nothing
//! is stated of it; the words, the files and the sink are stated where they are used.

ghost use Rattle.std.specs.Prelude.{◌≡◌};
ghost use Rattle.std.specs.Io.{WritesAtMost};

use std::alloc::Global;
use std::env::{self, Env, FillError};
use std::io;
use std::rt::Runtime;
use tail_outside::{RealFiles, RealOut};

/// The words of a process, the real files and the standard output.
#[derive(Drop)]
pub struct Process<R: Runtime> {
    pub words: Vec<String>,
    pub files: RealFiles<R>,
    pub out: RealOut<R>,
}

/// The process that the runtime is of, under the program's name. Where another word is not UTF-8, there are none.
pub fn process_of<R: Runtime>(alloc: Global, program: &str, runtime: R) -> io::Result<Process<R>> {
    let words = words_of(alloc, program, &runtime)?;
    Ok(Process {
        words,
        files: RealFiles::new(alloc, runtime.clone()?),
        out: RealOut::new(runtime),
    })
}

// The words, of which the first is the program's name, whatever the process was called by.
fn words_of<R: Runtime>(alloc: Global, program: &str, runtime: &R) -> io::Result<Vec<String>> {
    match env::args(&(Called { program, runtime }, alloc)) {
        Ok(words) => Ok(words.collect(alloc)?),
        Err(error) if error.kind() == io::ErrorKind::InvalidData => Ok(Vec::new(alloc)),
        Err(error) => Err(error),
    }
}

// The environment of a process that goes by this name.
#[derive(Drop)]
struct Called<'a, R> {
    program: &'a str,
    runtime: &'a R,
}

impl<R: Env> Env for Called<'_, R> {
    fn arg(&self, i: usize, buf: &mut [u8]) -> Result<usize, FillError> {
        if i > 0 {
            return self.runtime.arg(i, buf);
        }
        let name = self.program.as_bytes();
        if buf.len() < name.len() {
            return Err(FillError::TooLong);
        }
        buf[..name.len()].copy_from_slice(name);
        Ok(name.len())
    }

    fn var(&self, name: &str, buf: &mut [u8]) -> Result<usize, FillError> {
        self.runtime.var(name, buf)
    }

    fn var_at(&self, i: usize, buf: &mut [u8]) -> Result<usize, FillError> {
        self.runtime.var_at(i, buf)
    }
}
