//! The words that the program was started with.
ghost use Rattle.std.specs.Prelude.{◌≡◌, drop};

use flow_word::OutOfMemory;
use std::env::Env;
use std::{env, io};

/// All arguments of the program, its own name first. If one of them can't be read as text there are none, so that the words are
/// refused. `OutOfMemory` where memory ran out.
pub(crate) fn arguments(rt: &(impl Env + AllocGlobal)) -> Result<Vec<String>, OutOfMemory> {
    match env::args(rt) {
        Ok(args) => Ok(args.collect(rt.alloc())?),
        Err(error) if error.kind() == io::ErrorKind::OutOfMemory => Err(OutOfMemory),
        Err(_) => Ok(Vec::new(rt.alloc())),
    }
}

/// All arguments but the first, which is the program's own name.
pub(crate) fn after_the_name(arguments: &[String]) -> &[String]
    ensures { result.now ≡ drop 1 arguments.now }
{
    match arguments {
        [] => arguments,
        [_, words @ ..] => words,
    }
}
