//! OmniSim: simulates scheduled dataflow hardware, and writes what a lockstep machine would do.
#![tactic(auto)]

mod words;

use sim_io::{StdSink, StdSource};
use std::io;
use std::process::ExitCode;
use whole_answer::{FreeGate, Status, omnisim};
use words::{after_the_name, arguments};

fn main(rt: HostRuntime) -> ExitCode {
    let mut source = StdSource::new(rt.reader());
    let mut sink = StdSink::new(io::writer(&rt));
    let status = match arguments(&rt) {
        Ok(all) => omnisim(
            &rt,
            rt.alloc(),
            after_the_name(all.as_slice()),
            &mut source,
            &mut sink,
            &FreeGate,
        ),
        Err(_) => Status::Memory,
    };
    ExitCode::from(status.number())
}
