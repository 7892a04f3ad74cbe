//! The words that begin statements and operations.
ghost use Rattle.std.specs.Prelude.{◌≡◌};
ghost use Rattle.flow_grammar.specs.{keyword_of, verb_of, keyword_word, verb_word};

use crate::words::is_word;

/// The word that begins a statement.
#[derive(Clone, Copy, Debug, PartialEq, Eq)]
pub enum Keyword {
    Flow,
    Source,
    Sink,
    Fifo,
    Module,
    Reg,
    Mem,
    Block,
    Loop,
    Temp,
    At,
    Goto,
    Branch,
    Stop,
    Input,
    Limits,
    Depth,
    End,
}

impl Keyword {
    /// The letters of the keyword.
    pub fn word(self) -> &'static [u8]
        ensures { result.now ≡ keyword_word self }
    {
        match self {
            Keyword::Flow => b"flow",
            Keyword::Source => b"source",
            Keyword::Sink => b"sink",
            Keyword::Fifo => b"fifo",
            Keyword::Module => b"module",
            Keyword::Reg => b"reg",
            Keyword::Mem => b"mem",
            Keyword::Block => b"block",
            Keyword::Loop => b"loop",
            Keyword::Temp => b"temp",
            Keyword::At => b"at",
            Keyword::Goto => b"goto",
            Keyword::Branch => b"branch",
            Keyword::Stop => b"stop",
            Keyword::Input => b"input",
            Keyword::Limits => b"limits",
            Keyword::Depth => b"depth",
            Keyword::End => b"end",
        }
    }
}

/// The word that begins an operation.
#[derive(Clone, Copy, Debug, PartialEq, Eq)]
pub enum Verb {
    Set,
    Load,
    Store,
    Read,
    Write,
    TryRead,
    TryWrite,
    Empty,
    Full,
}

impl Verb {
    /// The letters of the verb.
    pub fn word(self) -> &'static [u8]
        ensures { result.now ≡ verb_word self }
    {
        match self {
            Verb::Set => b"set",
            Verb::Load => b"load",
            Verb::Store => b"store",
            Verb::Read => b"read",
            Verb::Write => b"write",
            Verb::TryRead => b"tryread",
            Verb::TryWrite => b"trywrite",
            Verb::Empty => b"empty",
            Verb::Full => b"full",
        }
    }
}

/// The keyword that a token is. `None` where it is none.
#[tactic(auto, unfolding(crate::specs::Keywords::keyword_of))]
pub fn keyword_in(token: &[u8]) -> Option<Keyword>
    ensures { result ≡ keyword_of token.now }
{
    let keywords = [
        Keyword::Flow,
        Keyword::Source,
        Keyword::Sink,
        Keyword::Fifo,
        Keyword::Module,
        Keyword::Reg,
        Keyword::Mem,
        Keyword::Block,
        Keyword::Loop,
        Keyword::Temp,
        Keyword::At,
        Keyword::Goto,
        Keyword::Branch,
        Keyword::Stop,
        Keyword::Input,
        Keyword::Limits,
        Keyword::Depth,
        Keyword::End,
    ];
    keywords
        .iter()
        .copied()
        .find(|keyword| is_word(token, keyword.word()))
}

/// The verb that a token is. `None` where it is none.
#[tactic(auto, unfolding(crate::specs::Keywords::verb_of))]
pub fn verb_in(token: &[u8]) -> Option<Verb>
    ensures { result ≡ verb_of token.now }
{
    let verbs = [
        Verb::Set,
        Verb::Load,
        Verb::Store,
        Verb::Read,
        Verb::Write,
        Verb::TryRead,
        Verb::TryWrite,
        Verb::Empty,
        Verb::Full,
    ];
    verbs
        .iter()
        .copied()
        .find(|verb| is_word(token, verb.word()))
}
