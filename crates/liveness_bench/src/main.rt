#![tactic(auto)]

// Times how live numbers are found; without an argument it does nothing.
use code::{Code, Row};
use liveness::Liveness;
use std::time::Instant;
use std::{env, io};

// How often each code is gone over; a place of the answer is read each time, so that none of it is left out.
const ROUNDS: usize = 201;

// A row that sets one value from two others; every eighth row is a branch back, so that loops nest.
fn row_at(place: u16) -> Row {
    let on = 32 + place % 480;
    if place % 8 == 7 {
        return Row::Branch {
            on,
            target: place & place.wrapping_add(1),
        };
    }
    Row::Operator {
        kind: 16,
        to: on,
        first: 32 + place.wrapping_mul(7) % 480,
        second: Some(32 + place.wrapping_mul(13) % 480),
        constant: None,
    }
}

// Code of so many rows, of which the last is the end.
fn nested(rows: u16) -> Option<Code> {
    let mut code = Code::new(512, usize::from(rows))?;
    // The number of a row is what its contents are made from.
    for place in 1..rows {
        let _ = code.push(row_at(place - 1));
    }
    let _ = code.push(Row::End);
    Some(code)
}

fn time(rt: &HostRuntime, rows: u16) -> io::Result<()> {
    // No `?`: a size that is not to be had is passed over.
    let Some(code) = nested(rows) else {
        return Ok(());
    };
    let start = Instant::now(rt)?;
    let mut live = 0;
    for round in 0..ROUNDS {
        let found = Liveness::of(&code);
        live ^= found.before(round).len() ^ found.after(round).len();
    }
    let nanos = start.elapsed(rt)?.as_nanos() / ROUNDS as u128;
    println!(rt; "{rows} rows: {nanos} ns (check {live})")
}

fn main(rt: HostRuntime) -> io::Result<()> {
    if env::args(&rt)?.count() < 2 {
        return Ok(());
    }
    time(&rt, 8)?;
    time(&rt, 32)?;
    time(&rt, 128)?;
    time(&rt, 512)
}
