//! The answer to `order`.
ghost use Rattle.std.specs.Prelude.{◌≡◌, ◌<◌, ◌∷◌, ◌++◌, [], decimal, flat_map, IfOk, OnOk};
ghost use Rattle.whole_answer.specs.{line, DesignHasModule, order_tokens, order_words, ordered, used_words};

use crate::answer::Answer;
use crate::ending::Ending;
use flow_design::{CheckedPlan, Design};
use flow_word::{List, OutOfMemory};
use report_text::{module_name, push_token, push_value};
use serial_order::{Order, Used, check_order};
use std::alloc::Global;

/// The answer to `order`: a line for each module of a plan. Nothing is simulated. `OutOfMemory` where memory ran out.
pub(crate) fn order_modules(alloc: Global, plan: &CheckedPlan) -> Result<Answer, OutOfMemory>
    ensures { IfOk result (λ whole. whole ≡ ordered plan.now.design) }
{
    plan.fits();
    let design = plan.design();
    let mut text = List::new(alloc);
    for module in 0..design.modules.as_slice().len() {
        print_order(&mut text, design, module as u32)?;
    }
    Ok(Answer {
        text,
        ending: Ending::Done,
    })
}

/// Adds the line of a module: whether it is serial, or which rule it breaks first. After `OutOfMemory` the text may have part of
/// it.
#[tactic(auto, using(crate::proofs::FurtherLines::line_of_more))]
fn print_order(text: &mut List<u8>, design: &Design, module: u32) -> Result<(), OutOfMemory>
    requires { DesignHasModule design.now «module» }
    ensures { OnOk result (text.new ≡ text.old ++ line (order_tokens design.now «module»)) }
{
    text.extend_from_slice(b"order")?;
    push_token(text, module_name(design, module))?;
    push_order(text, check_order(design, module))?;
    text.push(b'\n')
}

/// Adds the words for what a module is, with a space before each. After `OutOfMemory` the text may have some of them.
fn push_order(text: &mut List<u8>, order: Order) -> Result<(), OutOfMemory>
    ensures { OnOk result (text.new ≡ text.old ++ flat_map (λ t. 32 ∷ t) (order_words order)) }
{
    match order {
        Order::Serial => push_token(text, b"serial"),
        Order::Query { block, operation } => push_place(text, b"query", block, operation),
        Order::Late { block, operation } => push_place(text, b"late", block, operation),
        Order::Wide { block, used } => {
            push_token(text, b"wide")?;
            push_value(text, block as u64)?;
            let (word, number) = used_words(used);
            push_token(text, word)?;
            push_value(text, number as u64)
        }
    }
}

/// Adds a word, the number of a block and the number of an operation, with a space before each.
fn push_place(
    text: &mut List<u8>,
    word: &[u8],
    block: u32,
    operation: u32,
) -> Result<(), OutOfMemory>
    ensures { OnOk result (text.new ≡ text.old ++ flat_map (λ t. 32 ∷ t) (word.now ∷ decimal block ∷ decimal operation ∷ [])) }
{
    push_token(text, word)?;
    push_value(text, block as u64)?;
    push_value(text, operation as u64)
}

/// The word for the kind of a thing that operations use, and the thing's number.
fn used_words(thing: Used) -> (&'static [u8], u32)
    ensures { used_words thing ≡ result.0.now ∷ decimal result.1 ∷ [] }
{
    match thing {
        Used::Register(number) => (b"register", number),
        Used::Memory(number) => (b"memory", number),
        Used::Reading(number) => (b"reading", number),
        Used::Writing(number) => (b"writing", number),
    }
}
