//! Whether a plan has no query operation.
ghost use Rattle.std.specs.Prelude.{◌≡◌, true, false, All};
ghost use Rattle.path_check.specs.{is_query, AsksNothing};

use flow_design::{Block, Module, Op, Plan};

/// Whether no operation of the plan's modules is a query.
///
/// It looks at each operation once, and takes no memory.
pub fn asks_nothing(plan: &Plan) -> bool
    ensures quiet { result ≡ true → AsksNothing plan.now }
    ensures asks { result ≡ false → AsksNothing plan.now → ⊥ }
{
    plan.design
        .modules
        .as_slice()
        .iter()
        .all(|module| asks_none(module))
}

/// Whether no operation of a module is a query.
fn asks_none(module: &Module) -> bool
    ensures quiet { result ≡ true → All (λ b. All (λ t. is_query t.op ≡ false) b.ops) «module».now.blocks }
    ensures asks { result ≡ false → All (λ b. All (λ t. is_query t.op ≡ false) b.ops) «module».now.blocks → ⊥ }
{
    module.blocks.as_slice().iter().all(|block| is_quiet(block))
}

/// Whether no operation of a block is a query.
fn is_quiet(block: &Block) -> bool
    ensures quiet { result ≡ true → All (λ t. is_query t.op ≡ false) block.now.ops }
    ensures asks { result ≡ false → All (λ t. is_query t.op ≡ false) block.now.ops → ⊥ }
{
    block
        .ops
        .as_slice()
        .iter()
        .all(|timed| !is_query(&timed.op))
}

/// Whether an operation is a query.
fn is_query(op: &Op<u32>) -> bool
    ensures { result ≡ is_query op.now }
{
    match op {
        Op::TryRead { .. } | Op::TryWrite { .. } | Op::Empty { .. } | Op::Full { .. } => true,
        Op::Set(..) | Op::Load { .. } | Op::Store { .. } | Op::Read { .. } | Op::Write(..) => false,
    }
}
