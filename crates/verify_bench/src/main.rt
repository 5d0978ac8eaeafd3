//! Verifies hostile code, for the benchmark of the verifier: `verify_bench KIND PLACES TURNS`.
#![tactic(auto)]

mod hostile;

use anyhow::{Context, Result};
use hostile::{Kind, verified};
use ioa_value::Declarations;
use std::env;

/// What the command line asks for.
#[derive(Clone, Copy)]
struct Asked {
    kind: Kind,
    places: u16,
    turns: u32,
}

// What these words ask for, if they are in order.
fn read(words: &[String]) -> Option<Asked> {
    match words {
        [_, kind, places, turns] => Some(Asked {
            kind: Kind::named(kind.as_str())?,
            places: places.parse().ok()?,
            turns: turns.parse().ok()?,
        }),
        _ => None,
    }
}

fn main(rt: HostRuntime) -> Result<()> {
    let alloc = rt.alloc();
    let words: Vec<String> = env::args(&rt)?.collect(alloc)?;
    let asked = read(words.as_slice()).context(
        "usage: verify_bench jumps|meets|types|bits|locals PLACES TURNS",
    )?;
    let types = Declarations::new(alloc)?.finish(alloc)?;
    for _turn in 0..asked.turns {
        verified(alloc, &types, asked.kind, asked.places)?;
    }
    println!(rt; "ok")?;
    Ok(())
}
