//! The lines that `audit` writes.

ghost use Rattle.std.specs.{Prelude.IfOk, Prelude.◌++◌, Prelude.◌<◌, Prelude.◌≡◌, String.string_bytes};
ghost use Rattle.nr_linkcommands.specs.AuditLines.{audit_line, order_line, stuck_line};

use nr_blockdesk::Receiver;
use std::alloc::{AllocError, Global};
use std::fmt::Write;

// The line of code block `r` of block `number`, by its receiver, after `head`.
pub(crate) fn code_line(
    alloc: Global,
    head: &str,
    number: u32,
    receiver: &Receiver,
    r: u32,
) -> Result<Vec<u8>, AllocError>
    requires { r < receiver.now.link.plan.c }
    ensures { IfOk result (λ line. line.items
        ≡ head.now ++ audit_line number receiver.now.link receiver.now.heard r) }
{
    let mut line = line_of(alloc, number, receiver, r)?;
    line.insert_str(0, head)?;
    Ok(line.into_bytes())
}

// The line of a code block without a head.
fn line_of(alloc: Global, number: u32, receiver: &Receiver, r: u32) -> Result<String, AllocError>
    requires { r < receiver.now.link.plan.c }
    ensures { IfOk result (λ line. string_bytes line
        ≡ audit_line number receiver.now.link receiver.now.heard r) }
{
    let peeler = receiver.peeler(r);
    if receiver.left(r) == 0 {
        return order_line(alloc, number, r, peeler.gained());
    }
    let positions = peeler.stuck()?;
    stuck_line(alloc, number, r, &positions)
}

// The line of code block `r` of block `number`, which is fixed in so many steps.
#[tactic(auto, unfolding(crate::specs::AuditLines::order_line))]
fn order_line(alloc: Global, number: u32, r: u32, steps: u32) -> Result<String, AllocError>
    ensures { IfOk result (λ line. string_bytes line ≡ order_line number r steps) }
{
    let mut line = String::new(alloc);
    writeln!(line, "order {number} {r} {steps}")?;
    Ok(line)
}

// The line of code block `r` of block `number`, if peeling is stuck on these positions.
#[tactic(auto, unfolding(crate::specs::AuditLines::stuck_line))]
fn stuck_line(alloc: Global, number: u32, r: u32, positions: &[u32]) -> Result<String, AllocError>
    ensures { IfOk result (λ line. string_bytes line ≡ stuck_line number r positions.now) }
{
    let mut line = String::new(alloc);
    let count = positions.len();
    write!(line, "stuck {number} {r} {count}")?;
    for position in positions {
        write!(line, " {position}")?;
    }
    line.push('\n')?;
    Ok(line)
}
