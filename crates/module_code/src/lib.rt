//! A module as code. Its blocks are compiled: expressions as flat code, operations as actions with the masks of their places. On that
//! code it opens, asks the channels in a clock, and moves on their replies.
#![tactic(auto)]

mod action;
mod asked;
mod code;
mod commits;
mod control;
mod flat;
mod moves;
mod noted;
mod noting;
mod opening;
mod operand;
mod replies;
mod running;
mod standing;
mod target;

pub use action::OpCode;
pub use asked::Asked;
pub use code::{BlockCode, Guarded, codes_of};
pub use control::{go_on, tick_to};
pub use flat::{Argument, Instruction};
pub use moves::{commit, make_move};
pub use noted::{Note, Noted, Notes, notes_are_enough};
pub use noting::note;
pub use opening::open;
pub use operand::Operand;
pub use replies::{Replies, ReplyList, is_yes};
pub use running::{Prepared, carry_out, prepare, temps_of};
pub use standing::{is_over, is_spent};
pub use target::Target;
