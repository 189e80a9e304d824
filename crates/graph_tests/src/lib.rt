#![tactic(auto)]

// Stores and piles of views against a plain list of pairs.
use graph::Graph;
use piles::looks::Looks;
use piles::pile::ask_and_join;

// The pairs that are joined, in this order.
const PAIRS: [(usize, usize); 8] = [
    (0, 39),
    (39, 38),
    (1, 2),
    (2, 7),
    (7, 1),
    (16, 33),
    (33, 34),
    (5, 39),
];

// Whether u and v stand in the list, in either order.
fn listed(u: usize, v: usize) -> bool {
    PAIRS.contains(&(u, v)) | PAIRS.contains(&(v, u))
}

// Joins the list and counts what was refused.
fn fill<G: Graph>(graph: &mut G) -> usize {
    PAIRS
        .iter()
        .map(|(u, v)| graph.join(*u, *v))
        .filter(|joined| joined.is_err())
        .count()
}

// How many of the questions on u and numbers below `most` are answered otherwise than the list says.
fn differences_at<G: Graph>(graph: &G, u: usize, most: usize) -> usize {
    let degree = (0..most).filter(|v| graph.joined(u, *v)).count();
    (0..most)
        .filter(|v| graph.joined(u, *v) != listed(u, *v))
        .count()
        .saturating_add(usize::from(graph.degree(u) != degree))
}

// The same of all numbers below `most`.
fn differences<G: Graph>(graph: &G, most: usize) -> usize {
    (0..most).fold(0, |wrong, u| {
        wrong.saturating_add(differences_at(graph, u, most))
    })
}

// What a pile over a filled graph says of u and v: whether they are joined, and the degree of u.
fn piled_answers<G: Graph + Drop>(mut graph: G, looks: Looks, u: usize, v: usize) -> (bool, usize) {
    fill(&mut graph);
    let (_back, asked) = ask_and_join(graph, looks, u, v);
    (asked.joined, asked.u_degree)
}

#[cfg(test)]
mod tests;
