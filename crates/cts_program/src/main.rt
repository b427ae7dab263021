//! The clock tree synthesizer `cts`.
#![tactic(auto)]

mod answers;
mod call;
mod check;
mod commands;
mod demo;
mod moves;
mod reading;
mod run;

use call::answer_call;
use cts_io::{HostErr, HostInputs, HostOut};
use std::process::ExitCode;
use std::rt::Env;
use std::{env, io};

fn main(rt: HostRuntime) -> ExitCode {
    let mut inputs = HostInputs::new(&rt);
    let mut out = HostOut::new(rt.stdout());
    let mut err = HostErr::new(rt.stderr());
    answer_call::<_, HostOut, HostErr>(rt.alloc(), words(&rt), &mut inputs, &mut out, &mut err)
}

// All words of the call, the first of which is the program's name.
fn words(rt: &(impl Env + AllocGlobal)) -> io::Result<Vec<String>> {
    Ok(env::args(rt)?.collect(rt.alloc())?)
}
