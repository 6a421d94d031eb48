use crate::checking::check;
use crate::derivations::judged::answer;
use std::alloc::{AllocError, Global};
use std::process::Abort;
use std::test::Fail;
use test_inference::program_of_text;

const ONE: &str =
    "interface I { m() } def main(): Unit { let a = new[I] in a ! m(); guard a : m { receive m() from b -> free(b) } }";

const LEAK: &str = "interface I { m() } def main(): Unit { let a = new[I] in () }";

const ALIAS: &str =
    "interface I { m(I!k), k() } def main(): Unit { let a = new[I] in a ! m(a); guard a : m + k { receive m(u) from b -> u ! k(); free(b) receive k() from b -> free(b) } }";

const BESIDE: &str =
    "interface J { k() } interface I { m(J!1) } def g(x: J!1): Unit { () } def main(): Unit { let j = new[J] in let a = new[I] in a ! m(j); guard a : m { receive m(u) from b -> free(b); free(j); g(u) } }";

const UNCOVERED: &str =
    "interface I { m() } def main(): Unit { let a = new[I] in guard a : m + 1 { receive m() from b -> free(b) } }";

const SENDS_ON: &str = "interface I { m() } def f(a: I!): Unit { f(a) } def main(): Unit { () }";

const PAIRS_APART: &str =
    "interface I { m(), n() } def f(a: I?*(m.n)): Unit { g(a) } def g(a: I?*m.*n): Unit { g(a) } def main(): Unit { () }";

const SOME: &str =
    "interface I { m() } def f(a: I?*m): Unit { g(a) } def g(a: I?1 + m.*m): Unit { g(a) } def main(): Unit { () }";

const WITH_GRID: &str =
    "interface I { m() } def f(a: I?*m): Unit { g(a) } def g(a: I?1 + m.*m): Unit { h(a) } def h(a: I?): Unit { h(a) } def main(): Unit { () }";

const ONE_OF_GRID: &str =
    "interface I { m() } def f(a: I?m): Unit { h(a) } def h(a: I?): Unit { h(a) } def main(): Unit { () }";

/// Programs, texts of derivations, and what they come to.
const DERIVATIONS: &[(&str, &str, &str)] = &[
    // A valid one, and each rule broken once.
    (
        ONE,
        "%%derivation\nvar 1 I 1\nnode 0 Unit {}\nnode 1 I?$1 {}\nnode 2 Unit {v0: I?$1 ret}\nnode 3 Unit {v0: I!m sec}\nnode 4 Unit {v0: I?m ret}\nnode 5 Unit {v1: I?1 ret}\nnode 6 Unit {}\n",
        "valid",
    ),
    (
        ONE,
        "%%derivation\nvar 1 I 1\nnode 0 Unit {}\nnode 1 I?$1 {}\nnode 2 Unit {v0: I?$1 ret}\nnode 3 Unit {v0: I!1 sec}\nnode 4 Unit {v0: I?m ret}\nnode 5 Unit {v1: I?1 ret}\nnode 6 Unit {}\n",
        "2 Cert",
    ),
    (
        ONE,
        "%%derivation\nvar 1 I 0\nnode 0 Unit {}\nnode 1 I?$1 {}\nnode 2 Unit {v0: I?$1 ret}\nnode 3 Unit {v0: I!m sec}\nnode 4 Unit {v0: I?m ret}\nnode 5 Unit {v1: I?1 ret}\nnode 6 Unit {}\n",
        "1 Cert",
    ),
    (
        ONE,
        "%%derivation\nvar 1 I 1\nnode 0 Unit {}\nnode 1 I?$1 {}\nnode 2 Unit {v0: I?$1 ret}\nnode 3 Unit {v0: I!m sec}\nnode 4 Unit {v0: I?m sec}\nnode 5 Unit {v1: I?1 ret}\nnode 6 Unit {}\n",
        "4 Use",
    ),
    (
        ONE,
        "%%derivation\nvar 1 I 1\nnode 0 Unit {}\nnode 1 I?$1 {}\nnode 2 Unit {v0: I?$1 ret}\nnode 3 Unit {v0: I!m sec}\nnode 4 Unit {v0: I?m ret}\nnode 5 Unit {v1: I?1 ret}\nnode 6 Unit {}\nnode 7 Unit {}\n",
        "7 Shape",
    ),
    // The last node's line is missing, or all lines are.
    (
        ONE,
        "%%derivation\nvar 1 I 1\nnode 0 Unit {}\nnode 1 I?$1 {}\nnode 2 Unit {v0: I?$1 ret}\nnode 3 Unit {v0: I!m sec}\nnode 4 Unit {v0: I?m ret}\nnode 5 Unit {v1: I?1 ret}\n",
        "6 Shape",
    ),
    (ONE, "%%derivation\nvar 1 I 1\n", "0 Shape"),
    // Without the variable, and with a type of another kind.
    (
        ONE,
        "%%derivation\nnode 0 Unit {}\nnode 1 I?$1 {}\nnode 2 Unit {v0: I?$1 ret}\nnode 3 Unit {v0: I!m sec}\nnode 4 Unit {v0: I?m ret}\nnode 5 Unit {v1: I?1 ret}\nnode 6 Unit {}\n",
        "1 Shape",
    ),
    (
        ONE,
        "%%derivation\nvar 1 I 1\nnode 0 Int {}\nnode 1 I?$1 {}\nnode 2 Unit {v0: I?$1 ret}\nnode 3 Unit {v0: I!m sec}\nnode 4 Unit {v0: I?m ret}\nnode 5 Unit {v1: I?1 ret}\nnode 6 Unit {}\n",
        "0 Shape",
    ),
    // A certificate is left over.
    (
        ONE,
        "%%derivation\nvar 1 I 1\nnode 0 Unit {}\nnode 1 I?$1 {}\nnode 2 Unit {v0: I?$1 ret}\nnode 3 Unit {v0: I!m sec} c()\nnode 4 Unit {v0: I?m ret}\nnode 5 Unit {v1: I?1 ret}\nnode 6 Unit {}\n",
        "3 Cert",
    ),
    // A name of the let in its bound part, and a variable that isn't there.
    (
        ONE,
        "%%derivation\nvar 1 I 1\nnode 0 Unit {}\nnode 1 I?$1 {v0: I!1 sec}\nnode 2 Unit {v0: I?$1 ret}\nnode 3 Unit {v0: I!m sec}\nnode 4 Unit {v0: I?m ret}\nnode 5 Unit {v1: I?1 ret}\nnode 6 Unit {}\n",
        "1 Shape",
    ),
    (
        ONE,
        "%%derivation\nvar 1 I 1\nnode 0 Unit {v9: I!1 sec}\nnode 1 I?$1 {}\nnode 2 Unit {v0: I?$1 ret}\nnode 3 Unit {v0: I!m sec}\nnode 4 Unit {v0: I?m ret}\nnode 5 Unit {v1: I?1 ret}\nnode 6 Unit {}\n",
        "0 Shape",
    ),
    (
        LEAK,
        "%%derivation\nnode 0 Unit {}\nnode 1 I?1 {}\nnode 2 Unit {}\n",
        "0 Drop",
    ),
    (
        ALIAS,
        "%%derivation\nnode 0 Unit {}\nnode 1 I?1 {}\nnode 2 Unit {v0: I?1 ret}\nnode 3 Unit {v0: I!m + k sec}\nnode 4 Unit {v0: I?m + k ret}\nnode 5 Unit {v1: I!k sec, v2: I?1 ret}\nnode 6 Unit {v1: I!k sec}\nnode 7 Unit {v2: I?1 ret}\nnode 8 Unit {}\nnode 9 Unit {v3: I?1 ret}\nnode 10 Unit {}\n",
        "3 Alias",
    ),
    (
        BESIDE,
        "%%derivation\nnode 0 Unit {v0: J!1 sec}\nnode 1 Unit {}\nnode 2 J?1 {}\nnode 3 Unit {v0: J?1 ret}\nnode 4 I?1 {}\nnode 5 Unit {v0: J?1 ret, v1: I?1 ret}\nnode 6 Unit {v0: J!1 sec, v1: I!m sec}\nnode 7 Unit {v0: J?1 ret, v1: I?m ret}\nnode 8 Unit {v0: J?1 ret, v2: J!1 sec, v3: I?1 ret}\nnode 9 Unit {v3: I?1 ret}\nnode 10 Unit {}\nnode 11 Unit {v0: J?1 ret, v2: J!1 sec}\nnode 12 Unit {v0: J?1 ret}\nnode 13 Unit {}\nnode 14 Unit {v2: J!1 sec}\n",
        "7 Payload",
    ),
    (
        UNCOVERED,
        "%%derivation\nnode 0 Unit {}\nnode 1 I?m + 1 {}\nnode 2 Unit {v0: I?m + 1 ret}\nnode 3 Unit {v1: I?1 ret}\nnode 4 Unit {}\n",
        "2 Covers",
    ),
    (
        SENDS_ON,
        "%%derivation\nvar 1 I 0\nnode 0 Unit {v0: I!*m sec}\nnode 1 Unit {}\n",
        "0 Empty",
    ),
    (
        SENDS_ON,
        "%%derivation\nvar 1 I *m\nnode 0 Unit {v0: I!*m sec}\nnode 1 Unit {}\n",
        "valid",
    ),
    // Covers: pairs lie in what stands apart.
    (
        PAIRS_APART,
        "%%derivation\nnode 0 Unit {v0: I?*m.*n ret} c(0:0,0;1,1)\nnode 1 Unit {v0: I?*m.*n ret}\nnode 2 Unit {}\n",
        "valid",
    ),
    (
        PAIRS_APART,
        "%%derivation\nnode 0 Unit {v0: I?*m.*n ret} c(0:0,0;1,2)\nnode 1 Unit {v0: I?*m.*n ret}\nnode 2 Unit {}\n",
        "0 Cert",
    ),
    (
        PAIRS_APART,
        "%%derivation\nnode 0 Unit {v0: I?*m.*n ret}\nnode 1 Unit {v0: I?*m.*n ret}\nnode 2 Unit {}\n",
        "0 Cert",
    ),
    (
        PAIRS_APART,
        "%%derivation\nnode 0 Unit {v0: I?*m.*n ret} c(0:0,0;1,1) c(0:0,0;1,1)\nnode 1 Unit {v0: I?*m.*n ret}\nnode 2 Unit {}\n",
        "0 Cert",
    ),
    // Grids.
    (
        SOME,
        "%%derivation\nnode 0 Unit {v0: I?1 + m.*m ret} g2\nnode 1 Unit {v0: I?1 + m.*m ret}\nnode 2 Unit {}\n",
        "valid",
    ),
    (
        SOME,
        "%%derivation\nnode 0 Unit {v0: I?1 + m.*m ret} g1\nnode 1 Unit {v0: I?1 + m.*m ret}\nnode 2 Unit {}\n",
        "0 Cert",
    ),
    (
        SOME,
        "%%derivation\nnode 0 Unit {v0: I?1 + m.*m ret} g0\nnode 1 Unit {v0: I?1 + m.*m ret}\nnode 2 Unit {}\n",
        "0 Cert",
    ),
    (
        WITH_GRID,
        "%%derivation\nvar 1 I @2 0 1 2\nnode 0 Unit {v0: I?1 + m.*m ret} g2\nnode 1 Unit {v0: I?$1 ret} g2\nnode 2 Unit {v0: I?$1 ret}\nnode 3 Unit {}\n",
        "valid",
    ),
    (
        WITH_GRID,
        "%%derivation\nvar 1 I @2 0 1\nnode 0 Unit {v0: I?1 + m.*m ret} g2\nnode 1 Unit {v0: I?$1 ret} g2\nnode 2 Unit {v0: I?$1 ret}\nnode 3 Unit {}\n",
        "1 Cert",
    ),
    (
        WITH_GRID,
        "%%derivation\nvar 1 I @2 0 1 2\nnode 0 Unit {v0: I?1 + m.*m ret} g2\nnode 1 Unit {v0: I?$1 ret} g3\nnode 2 Unit {v0: I?$1 ret}\nnode 3 Unit {}\n",
        "1 Cert",
    ),
    // A grid has a closed form too.
    (
        ONE_OF_GRID,
        "%%derivation\nvar 1 I @2 0 1 2\nnode 0 Unit {v0: I?m ret} c(1:)\nnode 1 Unit {v0: I?$1 ret}\nnode 2 Unit {}\n",
        "valid",
    ),
    (
        ONE_OF_GRID,
        "%%derivation\nvar 1 I @2 0 1 2\nnode 0 Unit {v0: I?m ret} c(0:)\nnode 1 Unit {v0: I?$1 ret}\nnode 2 Unit {}\n",
        "0 Cert",
    ),
    // Texts that aren't spelled: the first bad line.
    // The first line is another, or it doesn't end.
    (ONE, "%%derivations\n", "bad text at 0"),
    (ONE, "%%derivation", "bad text at 0"),
    (ONE, "", "bad text at 0"),
    // A leading zero, a number that is left out, a number above 32 bits.
    (
        ONE,
        "%%derivation\nvar 01 I 1\nnode 0 Unit {}\nnode 1 I?$1 {}\nnode 2 Unit {v0: I?$1 ret}\nnode 3 Unit {v0: I!m sec}\nnode 4 Unit {v0: I?m ret}\nnode 5 Unit {v1: I?1 ret}\nnode 6 Unit {}\n",
        "bad text at 13",
    ),
    (
        ONE,
        "%%derivation\nvar 2 I 1\nnode 0 Unit {}\nnode 1 I?$1 {}\nnode 2 Unit {v0: I?$1 ret}\nnode 3 Unit {v0: I!m sec}\nnode 4 Unit {v0: I?m ret}\nnode 5 Unit {v1: I?1 ret}\nnode 6 Unit {}\n",
        "bad text at 13",
    ),
    (
        ONE,
        "%%derivation\nvar 1 I 1\nnode 00 Unit {}\nnode 1 I?$1 {}\nnode 2 Unit {v0: I?$1 ret}\nnode 3 Unit {v0: I!m sec}\nnode 4 Unit {v0: I?m ret}\nnode 5 Unit {v1: I?1 ret}\nnode 6 Unit {}\n",
        "bad text at 23",
    ),
    (
        ONE,
        "%%derivation\nvar 1 I 1\nnode 0 Unit {}\nnode 2 I?$1 {}\nnode 2 Unit {v0: I?$1 ret}\nnode 3 Unit {v0: I!m sec}\nnode 4 Unit {v0: I?m ret}\nnode 5 Unit {v1: I?1 ret}\nnode 6 Unit {}\n",
        "bad text at 38",
    ),
    (
        ONE,
        "%%derivation\nvar 1 I 1\nnode 0 Unit {}\nnode 1 I?$4294967296 {}\nnode 2 Unit {v0: I?$1 ret}\nnode 3 Unit {v0: I!m sec}\nnode 4 Unit {v0: I?m ret}\nnode 5 Unit {v1: I?1 ret}\nnode 6 Unit {}\n",
        "bad text at 38",
    ),
    // Names that the program doesn't have.
    (
        ONE,
        "%%derivation\nvar 1 J 1\nnode 0 Unit {}\nnode 1 I?$1 {}\nnode 2 Unit {v0: I?$1 ret}\nnode 3 Unit {v0: I!m sec}\nnode 4 Unit {v0: I?m ret}\nnode 5 Unit {v1: I?1 ret}\nnode 6 Unit {}\n",
        "bad text at 13",
    ),
    (
        ONE,
        "%%derivation\nvar 1 I 1\nnode 0 Unit {}\nnode 1 I?$1 {}\nnode 2 Unit {v0: I?$1 ret}\nnode 3 Unit {v0: I!n sec}\nnode 4 Unit {v0: I?m ret}\nnode 5 Unit {v1: I?1 ret}\nnode 6 Unit {}\n",
        "bad text at 80",
    ),
    // Brackets that aren't needed, and blanks too many.
    (
        ONE,
        "%%derivation\nvar 1 I 1\nnode 0 Unit {}\nnode 1 I?$1 {}\nnode 2 Unit {v0: I?$1 ret}\nnode 3 Unit {v0: I!m sec}\nnode 4 Unit {v0: I?(m) ret}\nnode 5 Unit {v1: I?1 ret}\nnode 6 Unit {}\n",
        "bad text at 106",
    ),
    (
        ONE,
        "%%derivation\nvar 1 I 1\nnode 0 Unit {}\nnode 1 I?$1 {}\nnode 2 Unit {v0: I?$1 ret}\nnode 3 Unit {v0: I!m sec}\nnode 4 Unit {v0: I?m  ret}\nnode 5 Unit {v1: I?1 ret}\nnode 6 Unit {}\n",
        "bad text at 106",
    ),
    (
        ONE,
        "%%derivation\nvar 1 I 1\nnode 0 Unit {}\nnode 1 I?$1 {}\nnode 2 Unit {v0: I?$1 ret}\nnode 3 Unit {v0: I!m sec}\nnode 4 Unit {v0: I?m ret} \nnode 5 Unit {v1: I?1 ret}\nnode 6 Unit {}\n",
        "bad text at 106",
    ),
    // An environment that doesn't ascend, or has a name twice.
    (
        ONE,
        "%%derivation\nvar 1 I 1\nnode 0 Unit {}\nnode 1 I?$1 {}\nnode 2 Unit {v0: I?$1 ret}\nnode 3 Unit {v0: I!m sec}\nnode 4 Unit {v1: I?m ret, v0: I?m ret}\nnode 5 Unit {v1: I?1 ret}\nnode 6 Unit {}\n",
        "bad text at 106",
    ),
    (
        ONE,
        "%%derivation\nvar 1 I 1\nnode 0 Unit {}\nnode 1 I?$1 {}\nnode 2 Unit {v0: I?$1 ret}\nnode 3 Unit {v0: I!m sec}\nnode 4 Unit {v0: I?m ret, v0: I?m ret}\nnode 5 Unit {v1: I?1 ret}\nnode 6 Unit {}\n",
        "bad text at 106",
    ),
    // Certificates and grids out of form.
    (
        ONE,
        "%%derivation\nvar 1 I 1\nnode 0 Unit {}\nnode 1 I?$1 {}\nnode 2 Unit {v0: I?$1 ret}\nnode 3 Unit {v0: I!m sec}\nnode 4 Unit {v0: I?m ret} c(\nnode 5 Unit {v1: I?1 ret}\nnode 6 Unit {}\n",
        "bad text at 106",
    ),
    (
        ONE,
        "%%derivation\nvar 1 I 1\nnode 0 Unit {}\nnode 1 I?$1 {}\nnode 2 Unit {v0: I?$1 ret}\nnode 3 Unit {v0: I!m sec}\nnode 4 Unit {v0: I?m ret} g02\nnode 5 Unit {v1: I?1 ret}\nnode 6 Unit {}\n",
        "bad text at 106",
    ),
    (
        ONE,
        "%%derivation\nvar 1 I @0 0\nnode 0 Unit {}\nnode 1 I?$1 {}\nnode 2 Unit {v0: I?$1 ret}\nnode 3 Unit {v0: I!m sec}\nnode 4 Unit {v0: I?m ret}\nnode 5 Unit {v1: I?1 ret}\nnode 6 Unit {}\n",
        "bad text at 13",
    ),
    (
        ONE,
        "%%derivation\nvar 1 I @2 1 0\nnode 0 Unit {}\nnode 1 I?$1 {}\nnode 2 Unit {v0: I?$1 ret}\nnode 3 Unit {v0: I!m sec}\nnode 4 Unit {v0: I?m ret}\nnode 5 Unit {v1: I?1 ret}\nnode 6 Unit {}\n",
        "bad text at 13",
    ),
    (
        ONE,
        "%%derivation\nvar 1 I @2 3\nnode 0 Unit {}\nnode 1 I?$1 {}\nnode 2 Unit {v0: I?$1 ret}\nnode 3 Unit {v0: I!m sec}\nnode 4 Unit {v0: I?m ret}\nnode 5 Unit {v1: I?1 ret}\nnode 6 Unit {}\n",
        "bad text at 13",
    ),
    (
        ONE,
        "%%derivation\nvar 1 I @2 0,0\nnode 0 Unit {}\nnode 1 I?$1 {}\nnode 2 Unit {v0: I?$1 ret}\nnode 3 Unit {v0: I!m sec}\nnode 4 Unit {v0: I?m ret}\nnode 5 Unit {v1: I?1 ret}\nnode 6 Unit {}\n",
        "bad text at 13",
    ),
    (
        ONE,
        "%%derivation\nvar 1 I @65536 0\nnode 0 Unit {}\nnode 1 I?$1 {}\nnode 2 Unit {v0: I?$1 ret}\nnode 3 Unit {v0: I!m sec}\nnode 4 Unit {v0: I?m ret}\nnode 5 Unit {v1: I?1 ret}\nnode 6 Unit {}\n",
        "bad text at 13",
    ),
    // A variable in a value, and a variable behind a node.
    (
        ONE,
        "%%derivation\nvar 1 I $1\nnode 0 Unit {}\nnode 1 I?$1 {}\nnode 2 Unit {v0: I?$1 ret}\nnode 3 Unit {v0: I!m sec}\nnode 4 Unit {v0: I?m ret}\nnode 5 Unit {v1: I?1 ret}\nnode 6 Unit {}\n",
        "bad text at 13",
    ),
    (
        ONE,
        "%%derivation\nvar 1 I 1\nnode 0 Unit {}\nvar 2 I 1\nnode 1 I?$1 {}\nnode 2 Unit {v0: I?$1 ret}\nnode 3 Unit {v0: I!m sec}\nnode 4 Unit {v0: I?m ret}\nnode 5 Unit {v1: I?1 ret}\nnode 6 Unit {}\n",
        "bad text at 38",
    ),
];

fn check_row(
    rt: &impl Abort,
    alloc: Global,
    program: &str,
    text: &str,
    expected: &str,
) -> Result<(), AllocError> {
    let Some(program) = program_of_text(alloc, program.as_bytes().to_vec(alloc)?) else {
        panic!(rt; "{program} is no program");
    };
    let got = answer(rt, alloc, &program, text.as_bytes())?;
    check(rt, got.as_str() == expected);
    Ok(())
}

fn check_rows(
    rt: &impl Abort,
    alloc: Global,
    rows: &[(&str, &str, &str)],
) -> Result<(), AllocError> {
    for (program, text, expected) in rows {
        check_row(rt, alloc, program, text, expected)?;
    }
    Ok(())
}

pub fn derivations_are_judged(rt: &impl Abort, alloc: Global) -> Result<(), Fail> {
    check_rows(rt, alloc, DERIVATIONS)?;
    Ok(())
}
