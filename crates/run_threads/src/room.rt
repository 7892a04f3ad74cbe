//! The memory that the caller takes before the first thread is started.
ghost use Rattle.std.specs.Prelude.{IfOk};
ghost use Rattle.run_threads.specs.{IsRoomFor};

use crate::start::PassHolder;
use flow_word::OutOfMemory;
use module_sets::ModuleSet;
use sim_hub::ModulePass;
use std::alloc::Global;

/// What the caller fills while it drives the modules. Nothing of it takes memory then.
#[derive(Drop)]
pub struct Room {
    /// Room for where the pass of each module is.
    pub slots: Vec<PassHolder>,
    /// Room for the passes that come back.
    pub passes: Vec<ModulePass>,
    /// Room for the modules that are noted.
    pub noted: ModuleSet,
}

impl Room {
    /// Empty lists with room for so many modules. `OutOfMemory` where memory ran out.
    pub fn new(alloc: Global, modules: u32) -> Result<Room, OutOfMemory>
        ensures { IfOk result (IsRoomFor modules) }
    {
        Ok(Room {
            slots: Vec::with_capacity(alloc, modules as usize)?,
            passes: Vec::with_capacity(alloc, modules as usize)?,
            noted: ModuleSet::new(alloc, modules)?,
        })
    }
}
