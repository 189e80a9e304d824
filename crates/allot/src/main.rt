#![tactic(auto)]

mod help;
mod input;

use answers::{accepted, refused};
use formula::read_formula;
use std::process::ExitCode;
use std::{env, io};
use wording::explain;

// Checks one formula: prints what it has, or the refusal and, on standard error, its reason in words.
fn check(rt: &HostRuntime, bytes: &[u8]) -> anyhow::Result<ExitCode> {
    match read_formula(bytes) {
        Ok(formula) => {
            let lines = accepted(rt.alloc(), &formula)?;
            print!(rt; "{lines}")?;
            Ok(ExitCode::SUCCESS)
        }
        Err(fault) => {
            let line = refused(rt.alloc(), fault)?;
            print!(rt; "{line}")?;
            let words = explain(rt.alloc(), bytes, fault)?;
            eprint!(rt; "{words}")?;
            Ok(ExitCode::FAILURE)
        }
    }
}

// Checks what was read, or tells by its name and the reason what cannot be read.
fn check_read(rt: &HostRuntime, name: &str, read: io::Result<Vec<u8>>) -> anyhow::Result<ExitCode> {
    match read {
        Ok(bytes) => check(rt, bytes.as_slice()),
        Err(error) => {
            eprint!(rt; "allot: {name} cannot be read: {error}\n")?;
            Ok(ExitCode::FAILURE)
        }
    }
}

fn run(rt: &HostRuntime) -> anyhow::Result<ExitCode> {
    let mut args = env::args(rt)?;
    let _program = args.next();
    // No `?`: without an argument there is standard input.
    let Some(first) = args.next() else {
        return check_read(rt, "standard input", input::from_stdin(rt));
    };
    let path = first.as_str();
    if path == "--help" {
        print!(rt; "{}", help::TEXT)?;
        return Ok(ExitCode::SUCCESS);
    }
    if args.next().is_some() | path.starts_with("-") {
        eprint!(rt; "allot: one file and no option but --help; allot --help explains\n")?;
        return Ok(ExitCode::FAILURE);
    }
    check_read(rt, path, input::from_file(rt, path))
}

fn main(rt: HostRuntime) -> anyhow::Result<ExitCode> {
    run(&rt)
}
