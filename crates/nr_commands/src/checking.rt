//! The command `check`.

ghost use Rattle.std.specs.Prelude.{◌≡◌, ◌≢◌, ℕ, ◌^◌, ◌<◌, IfSome, IsErr};
ghost use Rattle.nr_commands.specs.Command.{Delivers, Writes};
ghost use Rattle.nr_refusal.specs.Refusal.{FailsAs};
ghost use Rattle.nr_commands.specs.CheckText.{check_said, graph_lines, table_lines};

use crate::check_lines::graph_line;
use crate::delivering::put_line;
use crate::fault::RunFault;
use nr_graphpick::Graph;
use nr_shifttable::{Table, TableFault};
use nr_streams::{Sink, Source};
use std::alloc::Global;

/// Checks a shift table file (TS 38.212, 5.3.2) and writes a line for each base graph that the table has, graph 1
/// first, with the number of its entries.
///
/// The whole file is read and checked before the first put. Then each line is written as soon as it is made.
///
/// # Errors
///
/// In this order: `Table` with the first error of the file, after which the Sink is unchanged; `Write` if a put failed,
/// after which a first part of the text is written. `Memory` if memory runs out, after which nothing or a first part of
/// the text is written.
pub fn check<T: Source, O: Sink>(alloc: Global, table: &mut T, out: &mut O) -> Result<(), RunFault>
    requires pulls { T.failures table.old < 2 ^ 32 }
    requires puts { O.failures out.old < 2 ^ 32 }
    ensures text { T.failures table.new ≡ T.failures table.old → IfSome (T.remaining table.old)
        (λ octets. Delivers (O.written out.old) (O.written out.new) result (check_said octets)) }
    ensures untouched { IsErr result → result ≢ Err RunFault.Write → result ≢ Err RunFault.Memory
        → O.written out.new ≡ O.written out.old }
    ensures pulled { FailsAs (RunFault.Table TableFault.Read) result
        (T.failures table.old) (T.failures table.new) }
    ensures put { FailsAs RunFault.Write result (O.failures out.old) (O.failures out.new) }
{
    let table = Table::read(alloc, table)?;
    write_table(alloc, &table, out)
}

// Writes a line for each base graph that the table has.
fn write_table<O: Sink>(alloc: Global, table: &Table, out: &mut O) -> Result<(), RunFault>
    requires { O.failures out.old < 2 ^ 32 }
    ensures text { Writes (O.written out.old) (O.written out.new) result (table_lines table.now) }
    ensures put { FailsAs RunFault.Write result (O.failures out.old) (O.failures out.new) }
{
    write_graph(alloc, table, Graph::One, out)?;
    write_graph(alloc, table, Graph::Two, out)
}

// Writes the line of a base graph, if the table has it.
fn write_graph<O: Sink>(
    alloc: Global,
    table: &Table,
    graph: Graph,
    out: &mut O,
) -> Result<(), RunFault>
    requires { O.failures out.old < 2 ^ 32 }
    ensures text { Writes (O.written out.old) (O.written out.new) result
        (graph_lines table.now graph) }
    ensures put { FailsAs RunFault.Write result (O.failures out.old) (O.failures out.new) }
{
    if !table.has(graph) {
        return Ok(());
    }
    put_line(out, graph_line(alloc, table, graph))
}
