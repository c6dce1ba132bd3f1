//! Modules with every form.

/// Texts of a module `A`.
pub const TEXTS: [&str; 6] = [
    DECLARATIONS,
    EXPRESSIONS,
    COLLECTIONS,
    PATTERNS,
    STATEMENTS,
    GRAMMAR,
];

const DECLARATIONS: &str = r#"module A
import B::C; extend D;
data T; public data U = u() | v(int a, list[U]);
private int x = 1; public str s = "a"; map[int,str] m = ();
void f() { } default T f(int x, y) = x; test bool g() = true when x := 1, y;
public tuple[int a, set[T]] h(rel[int,int] r, lrel[loc l] q, value v, bool b) { ; }
E f(int x) = (E) `a`; E g() = (E) `a` when (E) `b`;
"#;

const EXPRESSIONS: &str = r#"module A
int a = p ? q : r; int b = p ? q; int c = p ==> q; int d = p <==> q;
int a = p || q || r; int b = p && q; int c = [x] := y; int d = 1 !:= y; int e = x <- y;
int a = p == q; int b = p != q; int c = p <= q; int d = p >= q; int e = p < q; int f = p > q;
int a = p in q; int b = p notin q; int c = p is q;
int a = p + q - r & s; int b = p * q / r % s; int c = p o q o r; int d = !p; int e = -1;
int a = p[0][1..2][..2][1..][..].f; int b = p+; int c = p*; int d = (p)+[1];
int a = 12; int b = "t\n"; int c = "a<p>b<q + 1>c"; int d = |cwd:///x/y|; int e = |unknown:///|;
int a = true; int b = false; int c = it; int d = f(); int e = f(#S, #start[T], 1);
int a = (E) `x <F y> \< z`; int b = ((E) `1`);
int a = visit (p) { case 1 => 2 }; int b = top-down-break visit (p + q) { case x: ; default: ; };
"#;

const COLLECTIONS: &str = r#"module A
int a = (); int b = (p); int c = (p | it + x | x <- xs, y); int d = (p : q | z); int e = (p : q); int f = (p : q, r : s);
int a = []; int b = [p]; int c = [p, *q]; int d = [p .. q]; int e = [p, q .. r]; int f = [p | q]; int g = [p, *q | r, s];
int a = {}; int b = {p}; int c = {p, *q}; int d = {p | q}; int e = {p, q | (E) `a`, s}; int f = <p>; int g = <p, q + 1>;
"#;

const PATTERNS: &str = r#"module A
void f(int x : y, x : 1, !x, /x, (E) `a`) { } void f(c(), c(x, (E) `<F y>`), int x, T _) { }
void f([], [x, *y, *int z, *_], {}, {*x, (E) `b`}, <x>, <x, 1>) { }
void f(-12, 12, "a", |cwd:///b|, |unknown:///|, true, false, _, x) { }
"#;

const STATEMENTS: &str = r#"module A
void f() { { ; } if (p) ; if (p, q) x = 1; else { } switch (p) { case 1: ; case x: { } f(); default: ; } }
void f() { switch (p) { case x => y case 2 => z when p, q case (E) `a`: visit (p) { case 1: ; } default: ; } }
void f() { for (x <- p) ; while (p, q) ; do ; while (p); do { } while (p, q); solve (a) ; solve (a, b) { } }
void f() { try ; catch: ; try ; catch x: ; catch (E) `a`: ; finally ; try ; finally { } visit (p) { case 1: ; } visit (p) { case 1: ; }; }
void f() { return; return 1; return for (p) append 1; insert 1; append 1; throw 1; fail; break; continue; ; f(); (E) `a`; }
void f() { int x = 1; T y = while (p) ; <x, y> = z; x[1].f[2] = z; x += 1; x -= 1; x *= 1; x /= 1; x &= 1; x.f = do ; while (p); x = (E) `a`; }
"#;

const GRAMMAR: &str = r#"module A
start syntax E = N; syntax F = a: "x" F | "y" > left F "+" F > right (b: F | bracket "(" F ")") | non-assoc c: F | assoc F;
lexical N = [0-9]+ !>> [0-9] | "a" << [a \n\]] name; lexical I = [a-z] !<< [A-Z]* \ K >> "." | ;
layout L = ![a]? | {N ","}* | {[b] ";"}+ x; keyword K = "if" | bracket;
"#;
