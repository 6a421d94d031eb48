// Texts that break a rule, each with the line that says where first, and a few that break none.

pub const TEXTS: &[(&[u8], &[u8])] = &[
    (
        b"def main(): Unit { let x = 1 in free(x) }",
        b"wrong kind at 32-39\n",
    ),
    (
        b"def main(): Unit { let x = 1 in x ! m(y) }",
        b"wrong kind at 32-40\n",
    ),
    (
        b"def main(): Unit { let x = \"s\" in guard x : z { free -> y } }",
        b"wrong kind at 34-59\n",
    ),
    (
        b"interface I { m(), n(Int) } def f(a: I?): Int { guard a : 0 { fail } } def main(): Unit { () }",
        b"wrong kind at 48-68\n",
    ),
    (
        b"interface I { m(), n(Int) } def f(a: I?): Int { guard a : 0 { fail fail } } def main(): Unit { () }",
        b"twice at 67-71\n",
    ),
    (
        b"interface I { m(), n(Int) } def f(a: I?): Unit { let x = guard a : 0 { fail } in print(x) } def main(): Unit { () }",
        b"wrong kind at 87-88\n",
    ),
    (
        b"interface I { m(), n(Int) } interface J { m() } def main(): Unit { let a = if true { new[I] } else { let b = new[J] in b } in free(a) }",
        b"wrong kind at 119-120\n",
    ),
    (
        b"interface I { m(), n(Int) } def main(): Unit { let a = if true { b } else { new[I] } in free(a) }",
        b"unknown name at 65-66\n",
    ),
    (
        b"interface I { m(), n(Int) } def f(a: I?): Unit { let x = guard a : 1 + m { free -> 1 receive m() from b -> free(b) } in () } def main(): Unit { () }",
        b"wrong kind at 107-114\n",
    ),
    (
        b"interface I { m() } interface J { m() } def g(j: J?): I? { if true { new[J] } else { new[I] } } def main(): Unit { () }",
        b"wrong kind at 69-75\n",
    ),
    (
        b"interface I { t1(), t2(), t3(), t4(), t5(), t6(), t7(), t8(), t9(), t10(), t11(), t12(), t13(), t14(), t15(), t16(), t17(), t18(), t19(), t20(), t21(), t22(), t23(), t24(), t25(), t26(), t27(), t28(), t29(), t30(), t31(), t32(), t1(K!x) } def main(): Unit { () }",
        b"twice at 229-231\n",
    ),
    (
        b"interface I { t1(), t2(), t3(), t4(), t5(), t6(), t7(), t8(), t9(), t10(), t11(), t12(), t13(), t14(), t15(), t16(), t17(), t18(), t19(), t20(), t21(), t22(), t23(), t24(), t25(), t26(), t27(), t28(), t29(), t30(), t31(), t32(K!x), t33() } def main(): Unit { () }",
        b"unknown name at 226-227\n",
    ),
    (
        b"interface I { t1(), t2(), t3(), t4(), t5(), t6(), t7(), t8(), t9(), t10(), t11(), t12(), t13(), t14(), t15(), t16(), t17(), t18(), t19(), t20(), t21(), t22(), t23(), t24(), t25(), t26(), t27(), t28(), t29(), t30(), t31(), t32(), t33() } def main(): Unit { () }",
        b"too many tags at 229-232\n",
    ),
    (
        b"def main(): Unit { () } def main(x: Int): Int { x }",
        b"twice at 28-32\n",
    ),
    (
        b"def main(x: Int): Int { x } def main(): Unit { () }",
        b"twice at 32-36\n",
    ),
    (b"def main(x: Int): Int { x }", b"wrong arity at 4-8\n"),
    (
        b"interface I { m() } def main(): I? { () }",
        b"wrong kind at 24-28\n",
    ),
    (
        b"interface I { m(), n(Int) } def main(): Unit { let a = new[I] in guard a : n { receive n(x) from b -> free(b) receive n() from b -> free(b) } }",
        b"twice at 110-117\n",
    ),
    (
        b"interface I { m(), n(Int) } def main(): Unit { let a = new[I] in guard a : n { receive k(x) from b -> free(b) receive k() from b -> free(b) } }",
        b"foreign tag at 87-88\n",
    ),
    (
        b"interface I { m(), n(Int) } def main(): Unit { let a = new[I] in guard a : n { receive n(x, x) from x -> () } }",
        b"wrong arity at 87-88\n",
    ),
    (
        b"interface I { m(), n(Int) } def main(): Unit { let a = new[I] in guard a : n { receive n(x) from x -> () } }",
        b"twice at 97-98\n",
    ),
    (
        b"interface I { m(), n(Int) } def main(): Unit { let a = new[I] in guard a : m.z { receive y() from b -> () } }",
        b"foreign tag at 77-78\n",
    ),
    (
        b"interface I { m(), n(Int) } def main(): Unit { let a = new[I] in guard a : 1 { free -> () fail free -> x } }",
        b"twice at 95-99\n",
    ),
    (
        b"interface I { m(J!m) } interface J { k() } def main(): Unit { () }",
        b"foreign tag at 18-19\n",
    ),
    (
        b"interface I { m(J!k) } interface J { m() } interface J { k() } def main(): Unit { () }",
        b"foreign tag at 18-19\n",
    ),
    (
        b"interface I { m(I?0.z) } def main(): Unit { () }",
        b"foreign tag at 20-21\n",
    ),
    (
        b"interface I { m(I?m,I?0) } def main(): Unit { () }",
        b"interface I { m(I?m, I?0) }\ndef main(): Unit { () }\n",
    ),
    (
        b"interface I { m(I!0.z) } def main(): Unit { () }",
        b"foreign tag at 20-21\n",
    ),
    (
        b"interface I { m() } def f(a: I!(0 + m.0)): Unit { () } def main(): Unit { () }",
        b"empty sending type at 29-40\n",
    ),
    (
        b"def f(x: Int, x: K?): J? { x } def f(): Unit { () }",
        b"twice at 14-15\n",
    ),
    (
        b"def f(): Unit { x } def g(a: K?): Unit { () }",
        b"unknown name at 29-30\n",
    ),
    (b"def f(): Unit { x } // end\n", b"unknown name at 27-27\n"),
    (
        b"def main(): Unit { let x = { let y = { let x = 1 in x == 1 } in y } in print(x + 1) }",
        b"wrong kind at 77-78\n",
    ),
    (
        b"def main(): Unit { let x = { let y = 1 in y } in print(y) }",
        b"unknown name at 55-56\n",
    ),
    (
        b"def main(): Unit { let x = 1 in let x = x == x in print(x + 1) }",
        b"wrong kind at 56-57\n",
    ),
    (
        b"def f(): Unit { () } def main(): Unit { { f() }; (5) }",
        b"wrong kind at 49-52\n",
    ),
    (b"def main(): Unit { (((5))) }", b"wrong kind at 19-26\n"),
    (
        b"def main(): Unit { print(1 < 2 == true) }",
        b"syntax error at 31\n",
    ),
    (
        b"def main(): Unit { print(((1 < 2)) < 3) }",
        b"wrong kind at 27-32\n",
    ),
    (
        b"def main(): Unit { print(1 + 2 == 3 * (4 < 5)) }",
        b"wrong kind at 39-44\n",
    ),
    (
        b"def main(): Unit { print((()) == ()) }",
        b"wrong kind at 26-28\n",
    ),
    (
        b"def f(x: Int): Unit { () } def main(): Unit { f(y, z) }",
        b"wrong arity at 46-47\n",
    ),
    (
        b"def f(x: Int): Int { x } def main(): Unit { f((1)) }",
        b"wrong kind at 44-50\n",
    ),
    (
        b"def f(x: Int): Int { x } def main(): Unit { f(true) }",
        b"wrong kind at 46-50\n",
    ),
    (
        b"def main(): Unit { let f = 1 in f() }",
        b"unknown name at 32-33\n",
    ),
    (
        b"def f(): Unit { () } def main(): Unit { f }",
        b"unknown name at 40-41\n",
    ),
    (
        b"interface I { n(Int) } def main(): Unit { let a = new[I] in let a = { a ! n(1); a } in guard a : n { receive n(a) from b -> free(a) } }",
        b"wrong kind at 124-131\n",
    ),
    (
        b"interface I { m() } def main(): Unit { let a = new[I] in guard a : 1 { free -> (); free -> () } }",
        b"syntax error at 88\n",
    ),
    (
        b"def main(): Unit { let x==1 in () }",
        b"syntax error at 24\n",
    ),
    (b"def main(): Unit { print(1->2) }", b"syntax error at 26\n"),
    (
        b"def main(): Unit { spawn { 1 }; () }",
        b"wrong kind at 27-28\n",
    ),
    (
        b"def main(): Unit { if 1 { () } else { () } }",
        b"wrong kind at 22-23\n",
    ),
    (
        b"def main(): Unit { new[K]; () }",
        b"unknown name at 23-24\n",
    ),
    (
        b"def main(): Unit { print((1 < 2) == (3 < 4)) }",
        b"def main(): Unit { print((1 < 2) == (3 < 4)) }\n",
    ),
    (
        b"def main(): Unit { let x = {{ { 1 } }} in { { print(x) }; { () } } }",
        b"def main(): Unit { let x = 1 in print(x); () }\n",
    ),
    (
        b"def main(): Unit { print(((1*2)+(3))*(4-(5-6))-(7*(8*9))) }",
        b"def main(): Unit { print((1 * 2 + 3) * (4 - (5 - 6)) - 7 * (8 * 9)) }\n",
    ),
];
