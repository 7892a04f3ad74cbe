//! The grammar of session texts: lines, tokens, the spelling of statements, which statements may stand where, and the
//! expressions in prefix form.
#![tactic(auto)]

mod fault;
mod keyword;
mod laws;
mod operand;
mod operator;
mod place;
mod prefix;
mod stack;
mod tokens;
mod version;
mod words;

pub use fault::{Code, LineFail, ReadFail, TextFault};
pub use keyword::{Keyword, Verb, keyword_in, verb_in};
pub use laws::{keeps_rules, one_answer, read_is_written, versions_agree, written_is_read};
pub use operand::{ParsedOperand, earlier_test};
pub use operator::{Operator, operator_in};
pub use place::SessionPlace;
pub use prefix::{KnownNames, one_operand, two_operands};
pub use tokens::tokens_in;
pub use version::{NEWEST, has_delays};
pub use words::{is_identifier, is_numeral, is_word, number_in, width_of};
