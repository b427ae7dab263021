use crate::same::expect_same;
use demo_input::demo;

#[test]
fn makes_an_input_with_two_registers(rt: HostRuntime) {
    let made = demo(rt.alloc(), 2, 0).expect(&rt, "memory");
    let bench = "INPUT(x)\nOUTPUT(r0)\nr0 = DFF(b1)\nr1 = DFF(b0)\n\
a0 = NAND(r0, r0)\na1 = NAND(r1, r1)\nb0 = XOR(a0, x)\nb1 = BUFF(a1)\n";
    let tech = "[wire]\ndelay = \"1/10\"\n[source]\nplace = \"CLK\"\n\
[register]\nsetup = 1\nhold = 1\nleast = 1\ngreatest = 2\n\
[gate.NAND]\nleast = 2\ngreatest = 4\n[gate.XOR]\nleast = 3\ngreatest = 9\n\
[gate.BUFF]\nleast = 1\ngreatest = 2\n[gate.OR]\nleast = 2\ngreatest = 4\n\
[gate.AND]\nleast = 1\ngreatest = 3\n";
    let pl = "UCLA pl 1.0\nr0 0 0 : N\nr1 37 91 : N\nCLK 500 500 : N /FIXED\n";
    expect_same(&rt, made.bench.as_slice(), bench.as_bytes(), &"made.bench");
    expect_same(&rt, made.tech.as_slice(), tech.as_bytes(), &"made.tech");
    expect_same(&rt, made.pl.as_slice(), pl.as_bytes(), &"made.pl");
}

// The seed moves what the first gates read and where the registers stand, round the end of both.
#[test]
fn moves_by_the_greatest_seed(rt: HostRuntime) {
    let made = demo(rt.alloc(), 5, 999).expect(&rt, "memory");
    let bench = "INPUT(x)\nOUTPUT(r0)\n\
r0 = DFF(b4)\nr1 = DFF(b0)\nr2 = DFF(b1)\nr3 = DFF(b2)\nr4 = DFF(b3)\n\
a0 = NAND(r0, r4)\na1 = NAND(r1, r1)\na2 = NAND(r2, r3)\na3 = NAND(r3, r0)\na4 = NAND(r4, r2)\n\
b0 = XOR(a0, x)\nb1 = BUFF(a1)\nb2 = OR(a2, x)\nb3 = AND(a3, x)\nb4 = XOR(a4, x)\n";
    let pl = "UCLA pl 1.0\nr0 989 983 : N\nr1 26 74 : N\nr2 63 165 : N\nr3 100 256 : N\n\
r4 137 347 : N\nCLK 500 500 : N /FIXED\n";
    expect_same(&rt, made.bench.as_slice(), bench.as_bytes(), &"made.bench");
    expect_same(&rt, made.pl.as_slice(), pl.as_bytes(), &"made.pl");
}

// The numbers below 1000 have 2890 digits in all. As 7, 37 and 91 have no divisor in common with
// 1000, each column of numbers holds every number once.
#[test]
fn makes_the_greatest_input(rt: HostRuntime) {
    let made = demo(rt.alloc(), 1000, 999).expect(&rt, "memory");
    expect_same(&rt, made.bench.len(), 59_500, &"made.bench.len");
    expect_same(&rt, made.tech.len(), 269, &"made.tech.len");
    expect_same(&rt, made.pl.len(), 16_705, &"made.pl.len");
}
