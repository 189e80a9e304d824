#![tactic(auto)]

// Times the two stores against each other; without an argument it does nothing.
use edges::edge_table::EdgeTable;
use graph::Graph;
use matrix::bit_matrix::BitMatrix;
use std::time::Instant;
use std::{env, io};

// Each pass asks or joins this many pairs, spread by a multiplier over all vertices.
const PAIRS: usize = 100_000;

fn spread(i: usize, n: usize) -> (usize, usize) {
    let word = i.wrapping_mul(0x9E37_79B9_7F4A_7C15);
    let u = (word / 0x1_0000_0000) % n.max(1);
    let v = (word / 0x100_0000_0000) % n.max(1);
    (u, v)
}

// Joins about every tenth pair of the graph; answers how many calls were refused.
fn joins<G: Graph>(graph: &mut G, n: usize) -> usize {
    (0..n.saturating_mul(n) / 20)
        .map(|i| spread(i, n))
        .map(|(u, v)| graph.join(u, v))
        .filter(|joined| joined.is_err())
        .count()
}

fn asks<G: Graph>(graph: &G, n: usize) -> usize {
    (0..PAIRS)
        .map(|i| spread(i, n))
        .filter(|(u, v)| graph.joined(*u, *v))
        .count()
}

fn degrees<G: Graph>(graph: &G, n: usize) -> usize {
    (0..n).fold(0, |sum: usize, u| sum.saturating_add(graph.degree(u)))
}

// Goes over all neighbours of every vertex.
fn walks<G: Graph>(graph: &G, n: usize) -> usize {
    let mut steps = 0usize;
    // By hand: the next question goes on behind the last answer, and a bound on the turns shows that it ends.
    for u in 0..n {
        let mut from = 0;
        for _ in 0..n {
            let Some(v) = graph.next(u, from) else {
                break;
            };
            from = v.saturating_add(1);
            steps = steps.saturating_add(1);
        }
    }
    steps
}

// What the work answers, and how many nanoseconds each of so many calls took.
fn timed<F: FnOnce() -> usize>(rt: &HostRuntime, calls: usize, work: F) -> io::Result<(usize, u128)>
    requires { F.IsAlwaysCallable work }
{
    let start = Instant::now(rt)?;
    let answer = work();
    let nanos = start.elapsed(rt)?.as_nanos() / calls.max(1) as u128;
    Ok((answer, nanos))
}

fn time<G: Graph>(rt: &HostRuntime, name: &str, graph: &mut G, n: usize) -> io::Result<()> {
    let (refused, joined) = timed(rt, n.saturating_mul(n) / 20, || joins(graph, n))?;
    let (found, asked) = timed(rt, PAIRS, || asks(graph, n))?;
    let (sum, counted) = timed(rt, n, || degrees(graph, n))?;
    let (steps, walked) = timed(rt, n, || walks(graph, n))?;
    println!(rt;
        "{name} n {n}: join {joined} ns, joined {asked} ns, degree {counted} ns, all neighbours of a vertex {walked} ns (check {refused} {found} {sum} {steps})"
    )
}

fn both(rt: &HostRuntime, n: usize) -> io::Result<()> {
    let mut bytes = [0u8; 16352];
    let Ok(mut matrix) = BitMatrix::try_open(n, &mut bytes) else {
        return Ok(());
    };
    time(rt, "matrix", &mut matrix, n)?;
    let mut words = [0u32; 65536];
    let Ok(mut table) = EdgeTable::try_open(n, &mut words) else {
        return Ok(());
    };
    time(rt, "table", &mut table, n)
}

fn main(rt: HostRuntime) -> io::Result<()> {
    if env::args(&rt)?.count() < 2 {
        return Ok(());
    }
    both(&rt, 64)?;
    both(&rt, 128)?;
    both(&rt, 512)
}
