//! The line that `check` writes.

ghost use Rattle.std.specs.Prelude.{◌≡◌, IfOk};
ghost use Rattle.nr_commands.specs.CheckLines.{graph_line};

use nr_graphpick::Graph;
use nr_shifttable::Table;
use std::alloc::{AllocError, Global};
use std::fmt::Write;

// The line of a base graph that the table has.
#[tactic(auto, unfolding(crate::specs::CheckLines::graph_line))]
pub(crate) fn graph_line(alloc: Global, table: &Table, graph: Graph) -> Result<Vec<u8>, AllocError>
    ensures { IfOk result (λ line. line.items ≡ graph_line table.now graph) }
{
    let mut line = String::new(alloc);
    let count = table.entries(graph);
    writeln!(line, "graph {graph} entries {count}")?;
    Ok(line.into_bytes())
}
