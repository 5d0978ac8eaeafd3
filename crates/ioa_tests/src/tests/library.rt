//! The library of protocols: a list of actions on one of its compositions.

ghost use Rattle.std.specs.Prelude.{◌≤ℤ◌, pos};

use crate::tests::made::{Got, expect_text, of_library, parsed};
use crate::tests::reached::{run_of, told_state};
use ioa_check::check;
use ioa_compose::compose;
use ioa_tree::{Declaration, Same};
use std::alloc::Global;
use std::process::Abort;

/// A list after which the first of two messages is acknowledged.
const SLID: &str =
    "send_msg(7)\nsend_msg(8)\nsend(0, Pkt(data, 1, 0, 7))\nsend(0, Pkt(data, 2, 0, 8))\nrecv(0, Pkt(data, 1, 0, 7))\ndrop(0)\nrecv(0, Pkt(data, 2, 0, 8))\nreceive_msg(7)\nreceive_msg(8)\nsend(1, Pkt(ack, 2, 0, 0))\nrecv(1, Pkt(ack, 2, 0, 0))";

/// The sender's variables are these after the actions of the sliding window.
#[test]
fn the_window_moves(rt: HostRuntime) {
    let alloc = rt.alloc();
    let window = of_library(&rt, alloc, "Sliding");
    let run = run_of(&rt, alloc, &window.program, SLID);
    let sender = run.states.first().expect(&rt, "a sender");
    let told = told_state(&rt, alloc, window.program.types(), sender);
    expect_text(&rt, told.as_str(), ", state(Ints[8], 2, 1)");
}

/// Whether the declarations are some of those that are held, in their order.
fn are_some_of(declarations: &[Declaration], held: &[Declaration]) -> bool {
    let mut left = declarations;
    for declaration in held {
        if let [first, rest @ ..] = left
            && first.same(declaration)
        {
            left = rest;
        }
    }
    left.is_empty()
}

/// The declarations of Stenning's protocol are some of the library's, in its order.
#[test]
fn the_protocol_is_the_librarys(rt: HostRuntime) {
    let alloc = rt.alloc();
    let library = parsed(&rt, alloc, ioa_links::text());
    let protocol = ioa_links::stenning_tree(alloc, 4).got(&rt);
    let declarations = protocol.declarations();
    assert!(rt; declarations.len() == 10 && are_some_of(declarations, library.declarations()));
}

/// The protocol is accepted, whatever its number of crashes.
#[test]
fn the_protocol_composes(rt: HostRuntime) {
    let alloc = rt.alloc();
    composes(&rt, alloc, 0);
    composes(&rt, alloc, 4);
    composes(&rt, alloc, 1_000);
    composes(&rt, alloc, i64::MAX);
}

/// Sees that the protocol with so many crashes is accepted.
fn composes(rt: &impl Abort, alloc: Global, crashes: i64)
    requires { pos 0 ≤ℤ crashes }
{
    let protocol = ioa_links::stenning_tree(alloc, crashes).got(rt);
    let checked = check(alloc, protocol).expect(rt, "a checked source");
    let composed = compose(alloc, &checked, Some("Stenning")).expect(rt, "a composition");
    assert!(rt; composed.members().len() == 6);
}
