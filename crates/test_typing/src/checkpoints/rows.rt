use crate::checking::check;
use crate::checkpoints::looked::answer;
use pat_core::Program;
use pat_deriv::read;
use pat_derivations::Derivation;
use std::alloc::{AllocError, Global};
use std::process::Abort;
use std::test::Fail;
use test_inference::program_of_text;

// A program that sends itself a message, and its derivation.
const SENDS: &str =
    "interface I { m() } def main(): Unit { let a = new[I] in a ! m(); guard a : m { receive m() from b -> free(b) } }";

const DERIVED: &str =
    "%%derivation\nvar 1 I 1\nnode 0 Unit {}\nnode 1 I?$1 {}\nnode 2 Unit {v0: I?$1 ret}\nnode 3 Unit {v0: I!m sec}\nnode 4 Unit {v0: I?m ret}\nnode 5 Unit {v1: I?1 ret}\nnode 6 Unit {}\n";

// Texts of checkpoints, and what they come to.
const ROWS: &[(&str, &str)] = &[
    // After five steps; a run that has ended.
    (
        "%%checkpoint\nnext 1 1 1\nmailbox 0 I\nmessage 0 0 m()\nthread 0 value unit\nframe - 4 {v0=#0}\n",
        "checked",
    ),
    ("%%checkpoint\nnext 1 0 0\n", "checked"),
    // No marker, no next numbers, and next numbers that aren't.
    ("", "bad text at 0"),
    ("%%derivation\nnext 1 0 0\n", "bad text at 0"),
    ("%%checkpoint\n", "bad text at 13"),
    ("%%checkpoint\nnext 1 0\n", "bad text at 13"),
    ("%%checkpoint\nnext 01 0 0\n", "bad text at 13"),
    ("%%checkpoint\nnext 4294967296 0 0\n", "bad text at 13"),
    // An interface, a tag and a mailbox that aren't there.
    ("%%checkpoint\nnext 1 1 1\nmailbox 0 J\n", "bad text at 24"),
    (
        "%%checkpoint\nnext 1 1 1\nmailbox 0 I\nmessage 0 0 n()\n",
        "bad text at 36",
    ),
    (
        "%%checkpoint\nnext 1 1 1\nmailbox 0 I\nmessage 0 1 m()\n",
        "bad text at 36",
    ),
    // Lines out of order.
    (
        "%%checkpoint\nnext 1 1 1\nthread 0 value unit\nmailbox 0 I\n",
        "bad text at 44",
    ),
    (
        "%%checkpoint\nnext 1 1 1\nframe - 4 {v0=#0}\n",
        "bad text at 24",
    ),
    // Integers, and a node past the program.
    (
        "%%checkpoint\nnext 1 0 0\nthread 0 value -0\n",
        "bad text at 24",
    ),
    (
        "%%checkpoint\nnext 1 0 0\nthread 0 value 9223372036854775808\n",
        "bad text at 24",
    ),
    (
        "%%checkpoint\nnext 1 0 0\nthread 0 node 7 {}\n",
        "bad text at 24",
    ),
    // A line that doesn't end, and one behind the last.
    (
        "%%checkpoint\nnext 1 0 0\nthread 0 value unit",
        "bad text at 24",
    ),
    ("%%checkpoint\nnext 1 0 0\n\n", "bad text at 24"),
    // A next number that is in use.
    (
        "%%checkpoint\nnext 1 0 1\nmailbox 0 I\nmessage 0 0 m()\nthread 0 value unit\nframe - 4 {v0=#0}\n",
        "Numbers",
    ),
    // A truth value where nothing is wanted, and a certificate that is left over.
    (
        "%%checkpoint\nnext 1 1 1\nmailbox 0 I\nmessage 0 0 m()\nthread 0 value true\nframe - 4 {v0=#0}\n",
        "Kinds",
    ),
    (
        "%%checkpoint\nnext 1 1 1\nmailbox 0 I\nmessage 0 0 m()\nthread 0 value unit\nframe - 4 {v0=#0} g2\n",
        "Kinds",
    ),
    // A message that brings the mailbox that it is in.
    (
        "%%checkpoint\nnext 1 1 1\nmailbox 0 I\nmessage 0 0 m(#0)\nthread 0 value unit\nframe - 4 {v0=#0}\n",
        "Distinct",
    ),
    // A guard that is control and frame.
    (
        "%%checkpoint\nnext 1 1 1\nmailbox 0 I\nmessage 0 0 m()\nthread 0 node 4 {v0=#0}\nframe - 4 {v0=#0}\n",
        "Order",
    ),
    // A mailbox from which nobody receives.
    (
        "%%checkpoint\nnext 1 1 1\nmailbox 0 I\nmessage 0 0 m()\nthread 0 value unit\n",
        "Holder",
    ),
    // A payload that isn't declared.
    (
        "%%checkpoint\nnext 1 1 1\nmailbox 0 I\nmessage 0 0 m(1)\nthread 0 value unit\nframe - 4 {v0=#0}\n",
        "Messages",
    ),
    // A message that is lost, and a certificate that is left over.
    (
        "%%checkpoint\nnext 1 1 1\nmailbox 0 I\nthread 0 value unit\nframe - 4 {v0=#0}\n",
        "Balance",
    ),
    (
        "%%checkpoint\nnext 1 1 1\nmailbox 0 I g2\nmessage 0 0 m()\nthread 0 value unit\nframe - 4 {v0=#0}\n",
        "Balance",
    ),
];

fn derivation_of(rt: &impl Abort, alloc: Global, program: &Program, text: &[u8]) -> Derivation {
    if text.len() > 1_000_000 || program.interfaces.len() > 1_000_000 {
        panic!(rt; "too long");
    }
    match read(alloc, program, text, 0) {
        Ok(derivation) => derivation,
        Err(_) => panic!(rt; "no derivation"),
    }
}

fn try_rows(rt: &impl Abort, alloc: Global) -> Result<(), AllocError> {
    let Some(program) = program_of_text(alloc, SENDS.as_bytes().to_vec(alloc)?) else {
        panic!(rt; "no program");
    };
    let derivation = derivation_of(rt, alloc, &program, DERIVED.as_bytes());
    for (text, wanted) in ROWS {
        let came = answer(rt, alloc, &program, &derivation, text.as_bytes())?;
        check(rt, came.as_str() == *wanted);
    }
    Ok(())
}

pub fn checkpoints_are_examined(rt: &impl Abort, alloc: Global) -> Result<(), Fail> {
    try_rows(rt, alloc)?;
    Ok(())
}
