// Whole programs in the canonical form.

/// Each is its own canonical text.
pub const PROGRAMS: &[&str] = &[
    "def main(): Unit { let x = 2 in print(x * 21) }\n",
    "def main(): Unit { () }\n",
    "interface Future { Put(Int), Get(User!Reply) }\n\
interface User { Reply(Int) }\n\
def future(self: Future?): Unit { guard self : Put.*Get { receive Put(x) from self -> resolved(self, x) } }\n\
def resolved(self: Future?, x: Int): Unit { guard self : *Get { free -> () receive Get(user) from self -> user ! Reply(x); resolved(self, x) } }\n\
def client(): Unit { let f = new[Future] in spawn { future(f) }; let me = new[User] in spawn { f ! Put(5) }; f ! Get(me); guard me : Reply { receive Reply(x) from me -> free(me); print(x) } }\n\
def main(): Unit { client() }\n",
    "interface Cell { Put(Int) }\n\
def cell(c: Cell?): Unit { guard c : Put { receive Put(x) from c -> free(c); print(x) } }\n\
def main(): Unit { let c = new[Cell] in spawn { cell(c) }; c ! Put(1); c ! Put(2) }\n",
    "interface I { m(), n() }\n\
def main(): Unit { let a = new[I] in a ! n(); a ! m(); guard a : m.n { receive m() from b -> guard b : n { receive n() from c -> free(c) } } }\n",
    "interface I { m() }\n\
def main(): Unit { let a = new[I] in guard a : m + 1 { receive m() from b -> free(b) } }\n",
    "interface I { m() }\n\
def pump(a: I!): Unit { a ! m(); pump(a) }\n\
def drain(a: I?): Unit { guard a : *m { free -> () receive m() from b -> drain(b) } }\n\
def main(): Unit { let a = new[I] in spawn { drain(a) }; pump(a) }\n",
    "interface I { m() }\n\
def pump(a: I!*m): Unit { a ! m(); pump(a) }\n\
def drain(a: I?): Unit { guard a : *m { free -> () receive m() from b -> drain(b) } }\n\
def main(): Unit { let a = new[I] in spawn { drain(a) }; pump(a) }\n",
    "interface J { k() }\n\
interface I { m(J!k) }\n\
def f(a: I?): J!k { guard a : m { receive m(u) from b -> free(b); u } }\n\
def main(): Unit { () }\n",
    "interface J { k() }\n\
interface I { m(J!k) }\n\
def f(a: I?): Unit { guard a : m { receive m(u) from b -> free(b); spawn { u ! k() } } }\n\
def main(): Unit { () }\n",
    "interface I { m() }\n\
def main(): Unit { let a = new[I] in if true { free(a) } else { () } }\n",
    "interface I { m(), n() }\n\
def f(a: I?*(m.n)): Unit { g(a) }\n\
def g(a: I?*m.*n): Unit { g(a) }\n\
def main(): Unit { () }\n",
    "interface I { m() }\n\
def f(a: I?*m): Unit { g(a) }\n\
def g(a: I?*(m.m) + m.*(m.m)): Unit { g(a) }\n\
def main(): Unit { () }\n",
    "interface I { m() }\n\
def wait(a: I?, b: I!m): Unit { guard a : m { receive m() from c -> free(c); b ! m() } }\n\
def main(): Unit { let a = new[I] in let b = new[I] in spawn { wait(a, b) }; spawn { wait(b, a) } }\n",
    "interface User { Reply(Int) }\n\
interface F { Get(User!Reply) }\n\
def f(self: F?): Unit { guard self : Get { receive Get(u) from self -> free(self) } }\n\
def main(): Unit { () }\n",
    "interface I { m() }\n\
def main(): Unit { let a = new[I] in a ! m(); guard a : m { receive m() from b -> free(b) } }\n",
    "interface I { m(I!1) }\n\
def main(): Unit { let a = new[I] in a ! m(a); free(a) }\n",
    "interface I { m() }\n\
interface D { take(I?*m) }\n\
def serve(a: I?): Unit { guard a : *m { free -> () receive m() from b -> serve(b) } }\n\
def host(d: D?): Unit { guard d : take { receive take(u) from d -> free(d); spawn { serve(u) } } }\n\
def main(): Unit { let d = new[D] in spawn { host(d) }; let a = new[I] in d ! take(a); a ! m() }\n",
    "interface I { m() }\n\
interface D { take(I?m) }\n\
def host(d: D?): Unit { guard d : take { receive take(u) from d -> free(d) } }\n\
def main(): Unit { () }\n",
    "interface X { m(X?m) }\n\
def main(): Unit { let a = new[X] in let b = new[X] in a ! m(b); b ! m(a) }\n",
    "interface I { m() }\n\
def f(a: I?*m): Unit { g(a) }\n\
def g(a: I?1 + m.*m): Unit { g(a) }\n\
def main(): Unit { () }\n",
    "interface I { m() }\n\
def f0(a: I!): Unit { a ! m() }\n\
def f1(a: I!): Unit { f0(a); f0(a) }\n\
def f2(a: I!): Unit { f1(a); f1(a) }\n\
def f3(a: I!): Unit { f2(a); f2(a) }\n\
def f4(a: I!): Unit { f3(a); f3(a) }\n\
def f5(a: I!): Unit { f4(a); f4(a) }\n\
def f6(a: I!): Unit { f5(a); f5(a) }\n\
def f7(a: I!): Unit { f6(a); f6(a) }\n\
def f8(a: I!): Unit { f7(a); f7(a) }\n\
def f9(a: I!): Unit { f8(a); f8(a) }\n\
def f10(a: I!): Unit { f9(a); f9(a) }\n\
def f11(a: I!): Unit { f10(a); f10(a) }\n\
def f12(a: I!): Unit { f11(a); f11(a) }\n\
def r(a: I?): Unit { guard a : m { receive m() from b -> free(b) } }\n\
def main(): Unit { let a = new[I] in spawn { r(a) }; f12(a) }\n",
    "def main(): Unit { let x = 2 in x }\n",
    "def main(): Unit { print(9223372036854775807 + 1) }\n",
    "def f(): Unit { f() }\n\
def main(): Unit { f() }\n",
];
