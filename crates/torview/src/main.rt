// Draws one AS of a result with its neighbours: `torview [--most N] [--depth N] [--link URL] RESULT AS`.
#![tactic(auto)]

use run_base::{Status, code_of_failure};
use showing_run::view;
use std::env;
use std::process::ExitCode;
use tor_arena::Keys;
use tor_io::{FileShelf, StdSink};
use tor_words::words_of;

fn main(rt: HostRuntime) -> ExitCode {
    let args = match env::args(&rt) {
        Ok(args) => args,
        Err(error) => return ExitCode::from(code_of_failure(&error)),
    };
    let Ok(words) = words_of(rt.alloc(), args) else {
        return ExitCode::from(Status::NoMemory.code());
    };
    let mut out = StdSink::new(rt.stdout());
    let mut err = StdSink::new(rt.stderr());
    let alloc = rt.alloc();
    let keys = Keys::new(&rt);
    let mut shelf = FileShelf::new(rt);
    ExitCode::from(view(alloc, keys, &words, &mut shelf, &mut out, &mut err).code())
}
