//! Tables of what is declared before a line.
ghost use Rattle.std.specs.Prelude.{◌≡◌, ◌+◌, ◌<◌, ◌≤◌, ◌^◌, [], false, OnOk, OnErr, ◌⊎◌};
ghost use Rattle.flow_design.specs.declared.limits.TheConstants.{ALL_MEMORY_WORDS, EDITS};
ghost use Rattle.flow_text.specs.{is_among};
ghost use Rattle.flow_grammar.specs.Parts.{RegisterName, TempName, AVariable};
ghost use Rattle.flow_grammar.specs.Before as before;
ghost use Rattle.flow_text.specs.TableTests as tests;
ghost use Rattle.flow_text.specs.TablesOf as given;

use crate::names::Names;
use flow_design::limits::{Limits, Scale};
use flow_grammar::{KnownNames, SessionPlace, has_delays};
use flow_word::OutOfMemory;
use std::alloc::Global;

/// What the statements before a line declare, as far as the tests of the line need it.
#[derive(Drop)]
pub struct Tables<'a> {
    /// The place after the last statement.
    pub place: SessionPlace,
    /// The version of the language that is declared.
    pub version: u64,
    /// The limits that the session keeps.
    pub limits: Limits,
    pub channels: Names<'a>,
    /// The channels that are sources.
    pub sources: Names<'a>,
    /// The channels that are FIFOs.
    pub fifos: Names<'a>,
    pub modules: Names<'a>,
    /// The registers of the present module.
    pub registers: Names<'a>,
    /// The memories of the present module.
    pub memories: Names<'a>,
    /// The blocks of the present module.
    pub blocks: Names<'a>,
    /// The temps of the present body.
    pub temps: Names<'a>,
    /// The sources for which there is an `input`.
    pub inputs: Names<'a>,
    /// How many words all memories have together.
    pub memory_words: u64,
    /// How many operations the present body has.
    pub operations: u64,
    /// How many values all inputs have together.
    pub input_values: u64,
    /// How many edits there are.
    pub edits: u64,
}

impl KnownNames for Tables<'_> {
    ghost knows = { λ tables name. is_among (tests.names_of_sort tables AVariable) name };

    #[tactic(auto, using(crate::proofs::NameLemmas::among_append))]
    fn is_known(&self, name: &[u8]) -> bool {
        self.registers.has(name) || self.temps.has(name)
    }
}

impl<'a> Tables<'a> {
    /// The tables before any statement, in a session of this scale.
    #[tactic(auto, unfolding(crate::specs::TablesOf::tables_of))]
    pub fn new(alloc: Global, scale: Scale) -> Tables<'a>
        ensures { result ≡ given.tables_of scale [] }
    {
        Tables {
            place: SessionPlace::AtStart,
            version: 1,
            limits: scale.limits(),
            channels: Names::new(alloc),
            sources: Names::new(alloc),
            fifos: Names::new(alloc),
            modules: Names::new(alloc),
            registers: Names::new(alloc),
            memories: Names::new(alloc),
            blocks: Names::new(alloc),
            temps: Names::new(alloc),
            inputs: Names::new(alloc),
            memory_words: 0,
            operations: 0,
            input_values: 0,
            edits: 0,
        }
    }

    /// Whether a register or memory of the present module has this name.
    #[tactic(auto, using(crate::proofs::NameLemmas::among_append))]
    pub fn has_register_or_memory(&self, name: &[u8]) -> bool
        ensures { result ≡ is_among (tests.names_in_space self.now RegisterName) name.now }
    {
        self.registers.has(name) || self.memories.has(name)
    }

    /// Whether a register or memory of the present module, or a temp of the present body, has this name.
    #[tactic(auto, using(crate::proofs::NameLemmas::among_append))]
    pub fn has_variable_or_memory(&self, name: &[u8]) -> bool
        ensures { result ≡ is_among (tests.names_in_space self.now TempName) name.now }
    {
        self.registers.has(name) || self.memories.has(name) || self.temps.has(name)
    }

    /// Goes on to a place after a statement that declares nothing.
    pub fn move_to(&mut self, place: SessionPlace)
        ensures { self.new ≡ given.with_place self.old place }
    {
        self.place = place;
    }

    /// Whether FIFOs have delays in the declared version.
    pub fn has_delays(&self) -> bool
        ensures { result ≡ before.has_delays self.now.version }
    {
        has_delays(self.version)
    }

    /// Declares the version of the language.
    pub fn add_flow(&mut self, version: u64)
        ensures { self.new ≡ given.with_flow self.old version }
    {
        self.version = version;
        self.place = SessionPlace::AmongChannels;
    }

    /// Adds a source. After `OutOfMemory` the tables are as they were, or have it as a channel only.
    #[tactic(auto, using(crate::proofs::ChannelLemmas::new_source))]
    pub fn add_source(&mut self, name: &'a [u8]) -> Result<(), OutOfMemory>
        requires tables { given.IsOfStatements self.old }
        requires new { is_among self.old.channels name.now ≡ false }
        ensures ok { OnOk result (self.new ≡ given.with_source self.old name.now) }
        ensures err { OnErr result ((self.new ≡ self.old) ⊎ (self.new ≡ given.with_channel self.old name.now)) }
    {
        self.channels.add(name)?;
        self.sources.add(name)?;
        self.place = SessionPlace::AmongChannels;
        Ok(())
    }

    /// Adds a sink. After `OutOfMemory` the tables are as they were.
    pub fn add_sink(&mut self, name: &'a [u8]) -> Result<(), OutOfMemory>
        requires { is_among self.old.channels name.now ≡ false }
        ensures ok { OnOk result (self.new ≡ given.with_sink self.old name.now) }
        ensures err { OnErr result (self.new ≡ self.old) }
    {
        self.channels.add(name)?;
        self.place = SessionPlace::AmongChannels;
        Ok(())
    }

    /// Adds a FIFO. After `OutOfMemory` the tables are as they were, or have it as a channel only.
    #[tactic(auto, using(crate::proofs::ChannelLemmas::new_fifo))]
    pub fn add_fifo(&mut self, name: &'a [u8]) -> Result<(), OutOfMemory>
        requires tables { given.IsOfStatements self.old }
        requires new { is_among self.old.channels name.now ≡ false }
        ensures ok { OnOk result (self.new ≡ given.with_fifo self.old name.now) }
        ensures err { OnErr result ((self.new ≡ self.old) ⊎ (self.new ≡ given.with_channel self.old name.now)) }
    {
        self.channels.add(name)?;
        self.fifos.add(name)?;
        self.place = SessionPlace::AmongChannels;
        Ok(())
    }

    /// Begins a module. After `OutOfMemory` the tables are as they were.
    pub fn add_module(&mut self, name: &'a [u8]) -> Result<(), OutOfMemory>
        requires { is_among self.old.modules name.now ≡ false }
        ensures ok { OnOk result (self.new ≡ given.with_module self.old name.now) }
        ensures err { OnErr result (self.new ≡ self.old) }
    {
        self.modules.add(name)?;
        self.registers.clear();
        self.memories.clear();
        self.blocks.clear();
        self.place = SessionPlace::AmongRegisters;
        Ok(())
    }

    /// Adds a register. After `OutOfMemory` the tables are as they were.
    #[tactic(auto, using(crate::proofs::NameLemmas::absent_append))]
    pub fn add_register(&mut self, name: &'a [u8]) -> Result<(), OutOfMemory>
        requires { is_among (tests.names_in_space self.old RegisterName) name.now ≡ false }
        ensures ok { OnOk result (self.new ≡ given.with_register self.old name.now) }
        ensures err { OnErr result (self.new ≡ self.old) }
    {
        self.registers.add(name)?;
        self.place = SessionPlace::AmongRegisters;
        Ok(())
    }

    /// Adds a memory of `words` words. After `OutOfMemory` the tables are as they were.
    #[tactic(auto, using(crate::proofs::NameLemmas::absent_append))]
    pub fn add_memory(&mut self, name: &'a [u8], words: u64) -> Result<(), OutOfMemory>
        requires new { is_among (tests.names_in_space self.old RegisterName) name.now ≡ false }
        requires room { self.old.memory_words + words ≤ ALL_MEMORY_WORDS }
        ensures ok { OnOk result (self.new ≡ given.with_memory self.old name.now words) }
        ensures err { OnErr result (self.new ≡ self.old) }
    {
        self.memories.add(name)?;
        self.memory_words += words;
        self.place = SessionPlace::AmongRegisters;
        Ok(())
    }

    /// Begins the body of a block or a loop. After `OutOfMemory` the tables are as they were.
    pub fn add_block(&mut self, name: &'a [u8]) -> Result<(), OutOfMemory>
        requires { is_among self.old.blocks name.now ≡ false }
        ensures ok { OnOk result (self.new ≡ given.with_block self.old name.now) }
        ensures err { OnErr result (self.new ≡ self.old) }
    {
        self.blocks.add(name)?;
        self.temps.clear();
        self.operations = 0;
        self.place = SessionPlace::AmongTemps;
        Ok(())
    }

    /// Adds a temp. After `OutOfMemory` the tables are as they were.
    #[tactic(auto, using(crate::proofs::NameLemmas::absent_append))]
    pub fn add_temp(&mut self, name: &'a [u8]) -> Result<(), OutOfMemory>
        requires { is_among (tests.names_in_space self.old TempName) name.now ≡ false }
        ensures ok { OnOk result (self.new ≡ given.with_temp self.old name.now) }
        ensures err { OnErr result (self.new ≡ self.old) }
    {
        self.temps.add(name)?;
        self.place = SessionPlace::AmongTemps;
        Ok(())
    }

    /// Counts an operation.
    pub fn add_operation(&mut self)
        requires { self.old.operations + 1 < 2 ^ 64 }
        ensures { self.new ≡ given.with_operation self.old }
    {
        self.operations += 1;
        self.place = SessionPlace::AmongOperations;
    }

    /// Adds an input of `count` values. After `OutOfMemory` the tables are as they were.
    pub fn add_input(&mut self, name: &'a [u8], count: u64) -> Result<(), OutOfMemory>
        requires new { is_among self.old.inputs name.now ≡ false }
        requires room { self.old.input_values + count < 2 ^ 64 }
        ensures ok { OnOk result (self.new ≡ given.with_input self.old name.now count) }
        ensures err { OnErr result (self.new ≡ self.old) }
    {
        self.inputs.add(name)?;
        self.input_values += count;
        self.place = SessionPlace::AmongInputs;
        Ok(())
    }

    /// Counts an edit.
    pub fn add_edit(&mut self)
        requires { self.old.edits < EDITS }
        ensures { self.new ≡ given.with_edit_line self.old }
    {
        self.edits += 1;
        self.place = SessionPlace::AmongEdits;
    }
}
