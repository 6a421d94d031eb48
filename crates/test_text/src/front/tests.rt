use crate::checking::check;
use crate::front::programs::PROGRAMS;
use crate::lexer::tokens_of;
use pat_parser::{ParseError, parse};
use pat_print::print;
use std::alloc::{AllocError, Global};
use std::process::Abort;
use std::test::Fail;

/// Texts, each with its canonical text.
const CORNERS: &[(&str, &str)] = &[
    // Blocks as bound terms, and where they are not needed.
    (
        "def f(): Unit { let x = { let y = 1 in y } in { print(x) } ; { { free(z) } } }",
        "def f(): Unit { let x = { let y = 1 in y } in print(x); free(z) }\n",
    ),
    (
        "def f(): Unit { { a!m(); { b!n() } }; () }",
        "def f(): Unit { { a ! m(); b ! n() }; () }\n",
    ),
    // A branch where a block stands, and where a term is bound.
    (
        "def f(b: Bool): Unit { if b { if true { () } else { { () } } } else { let x = { if (b) { 1 } else { 2 } } in () } }",
        "def f(b: Bool): Unit { if b { if true { () } else { () } } else { let x = if b { 1 } else { 2 } in () } }\n",
    ),
    // Payloads: none, and some.
    (
        "interface I{m(),n(Int,J!e),o(K?(a+b).c)}",
        "interface I { m(), n(Int, J!e), o(K?(a + b).c) }\n",
    ),
    // A guard within a guard, whose clauses end where the inner braces do.
    (
        "def f(a:I?):Unit{guard a:m.n{receive m()from b->guard b:n{receive n()from c->free(c)fail free->()}fail}}",
        "def f(a: I?): Unit { guard a : m.n { receive m() from b -> guard b : n { receive n() from c -> free(c) fail free -> () } fail } }\n",
    ),
    (
        "def f(a:I?):Unit{guard a:m{receive m(x,y)from b->{g(x);h(y)};free(b)}}",
        "def f(a: I?): Unit { guard a : m { receive m(x, y) from b -> { g(x); h(y) }; free(b) } }\n",
    ),
    // Strings.
    (
        "def f(): Unit { print(\"a\\\"b\\\\ // {é}\") }",
        "def f(): Unit { print(\"a\\\"b\\\\ // {é}\") }\n",
    ),
    // Operators of one level group to the left; brackets stay where a tree needs them.
    (
        "def f(): Int { (a - b) - (c - (d)) - 007 }",
        "def f(): Int { a - b - (c - d) - 7 }\n",
    ),
    (
        "def f(): Int { let x = (1) in let y = ((x)) in (x * y) * (y * 2) * (x - 1) }",
        "def f(): Int { let x = 1 in let y = x in x * y * (y * 2) * (x - 1) }\n",
    ),
    (
        "def f(): Bool { (a + b) == (c * (d + 1)) }",
        "def f(): Bool { a + b == c * (d + 1) }\n",
    ),
    (
        "def f(): Bool { ((a < b) == (c < (d))) }",
        "def f(): Bool { (a < b) == (c < d) }\n",
    ),
    // Patterns.
    (
        "def f(a: I?**m.*(n+(00)), b: I!(a+b)+(c+d)): Unit { () }",
        "def f(a: I?**m.*(n + 0), b: I!a + b + (c + d)): Unit { () }\n",
    ),
    (
        "def f(a: I?(a.b).(c.d).01, b: I!(*a).b, c: I?*(*(a.b)), d: I!(a + b).c): Unit { () }",
        "def f(a: I?a.b.(c.d).1, b: I!*a.b, c: I?**(a.b), d: I!(a + b).c): Unit { () }\n",
    ),
    // Types, arguments, and names beyond ASCII.
    (
        "def f(a:I?,b:I!,c:String,d:Bool,e:Int):I?m{a}",
        "def f(a: I?, b: I!, c: String, d: Bool, e: Int): I?m { a }\n",
    ),
    (
        "def été(): Unit { spawn{let x=new[I]in x!m(1,(2+3)*4,\"s\",true,());été()} }",
        "def été(): Unit { spawn { let x = new[I] in x ! m(1, (2 + 3) * 4, \"s\", true, ()); été() } }\n",
    ),
    // Comments and blanks leave no trace.
    (
        "// one\n\ndef f() : Unit\t{ // two {\r\n () } // three",
        "def f(): Unit { () }\n",
    ),
];

/// The canonical text of a text, or its refusal.
fn canonical(alloc: Global, text: &str) -> Result<String, AllocError> {
    let bytes = text.as_bytes();
    if bytes.len() > 1_000_000 {
        return String::from_str(alloc, "too long");
    }
    let Ok(tokens) = tokens_of(alloc, bytes, 4096) else {
        return String::from_str(alloc, "no tokens");
    };
    match parse(alloc, tokens, bytes.len() as u32) {
        Ok(tree) => shown(alloc, print(alloc, &tree)?),
        Err(ParseError::Unexpected(at)) => format!(in alloc; "unexpected {at}"),
        Err(ParseError::TooDeep(at)) => format!(in alloc; "too deep {at}"),
        Err(ParseError::NoMemory) => Err(AllocError),
    }
}

fn shown(alloc: Global, bytes: Vec<u8>) -> Result<String, AllocError> {
    match String::from_utf8(bytes) {
        Ok(text) => Ok(text),
        Err(_) => String::from_str(alloc, "no text"),
    }
}

fn check_row(rt: &impl Abort, alloc: Global, text: &str, expected: &str) -> Result<(), AllocError> {
    let got = canonical(alloc, text)?;
    check(rt, got.as_str() == expected);
    Ok(())
}

fn check_programs(rt: &impl Abort, alloc: Global, rows: &[&str]) -> Result<(), AllocError> {
    for text in rows {
        check_row(rt, alloc, text, text)?;
    }
    Ok(())
}

fn check_corners(rt: &impl Abort, alloc: Global, rows: &[(&str, &str)]) -> Result<(), AllocError> {
    for (text, expected) in rows {
        check_row(rt, alloc, text, expected)?;
        check_row(rt, alloc, expected, expected)?;
    }
    Ok(())
}

pub fn canonical_texts(rt: &impl Abort, alloc: Global) -> Result<(), Fail> {
    check_programs(rt, alloc, PROGRAMS)?;
    check_corners(rt, alloc, CORNERS)?;
    Ok(())
}
