// Joining all pairs, row by row.
ghost use Rattle.std.specs.Prelude.{◌≡◌, ℕ, map};
ghost use Rattle.code.specs.Codes.{rows_of};
ghost use Rattle.numbers.specs.Sets.{has};
ghost use Rattle.liveness.specs.Found.{after_of};
ghost use Rattle.allocation.specs.Interference.{edge, passing, row_edges, edges_of, live_after, filled};
ghost use Rattle.joining.specs.Chains.{JoinedOn};

use crate::neighbours::neighbours;
use code::Code;
use graph::Graph;
use graph::refusal::Refusal;
use liveness::Liveness;
use numbers::NumberSet;

// Joins u to all the others below n, rising.
fn join_all<G: Graph>(graph: &mut G, u: usize, others: &NumberSet, n: usize) -> Result<(), Refusal>
    ensures answer { result ≡ (filled (G.means graph.old) (map (edge u) (passing (has others.now) n))).answer }
    ensures after { G.means graph.new ≡ (filled (G.means graph.old) (map (edge u) (passing (has others.now) n))).left }
    ensures left { JoinedOn G.leaves graph.old graph.new }
{
    // Not try_for_each: its closure would change the graph that it captured, and a proof learns nothing of that.
    for v in others.iter() {
        if v >= n {
            return Ok(());
        }
        graph.join(u, v)?;
    }
    Ok(())
}

// Joins the pairs of the row at a place.
fn fill_row<G: Graph>(
    graph: &mut G,
    code: &Code,
    live: &Liveness,
    place: usize,
) -> Result<(), Refusal>
    requires { (v : ℕ) → after_of live.now place v ≡ live_after (rows_of code.now) place v }
    ensures answer { result ≡ (filled (G.means graph.old) (row_edges (rows_of code.now) code.now.numbers place)).answer }
    ensures after { G.means graph.new ≡ (filled (G.means graph.old) (row_edges (rows_of code.now) code.now.numbers place)).left }
    ensures left { JoinedOn G.leaves graph.old graph.new }
{
    // No `?`: what has no row or sets nothing is granted.
    let Some(row) = code.row(place) else {
        return Ok(());
    };
    match row.destination() {
        Some(to) => join_all(
            graph,
            usize::from(to),
            &neighbours(row, to, live, place),
            code.numbers(),
        ),
        None => Ok(()),
    }
}

// Joins every pair that the code joins, until the graph refuses one.
pub fn fill<G: Graph>(graph: &mut G, code: &Code) -> Result<(), Refusal>
    ensures answer { result ≡ (filled (G.means graph.old) (edges_of (rows_of code.now) code.now.numbers)).answer }
    ensures after { G.means graph.new ≡ (filled (G.means graph.old) (edges_of (rows_of code.now) code.now.numbers)).left }
    ensures left { JoinedOn G.leaves graph.old graph.new }
{
    let live = Liveness::of(code);
    // Not try_for_each, as in join_all.
    for place in 0..code.len() {
        fill_row(graph, code, &live, place)?;
    }
    Ok(())
}
