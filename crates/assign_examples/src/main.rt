// The first assignments of hand-made rows, a line each: 1 or 0 for found, and the byte of each of the 32 elements
// (0 to 9, then a to v, is a member; - is 255). What it writes is held to the file `stdout`.
#![tactic(auto)]

ghost use Rattle.std.specs.Prelude.{◌+◌, ◌≤◌};

use format::SPARE;
use masks::with;
use rows::turned;
use std::io::Write;

fn letter(b: u8) -> u8 {
    if b < 10 {
        b'0' + b
    } else if b < 32 {
        b'a' + (b - 10)
    } else {
        b'-'
    }
}

// Where standard output takes no more, the rest goes unseen.
fn write(rt: &HostRuntime, line: &[u8; 35]) {
    let _ = rt.stdout().write_all(line);
}

fn show(rt: &HostRuntime, found: Option<[u8; 32]>) {
    let mut line = [b' '; 35];
    line[0] = if found.is_some() { b'1' } else { b'0' };
    line[34] = b'\n';
    let w = found.unwrap_or([SPARE; 32]);
    for i in 0..32 {
        line[i + 2] = letter(w[i]);
    }
    write(rt, &line);
}

// Shows the first assignment. Rows are made by hand for members, which is easier to read, and are turned here.
fn show_first(rt: &HostRuntime, by_member: &[u32; 32], first: u8, k: u8, from: u8, to: u8)
    requires { (first + k ≤ 32) × (from ≤ to) × (to ≤ 32) }
{
    let rows = turned(by_member, 0, 32, 0, 32);
    show(rt, assign::first_assignment(&rows, first, k, from, to));
}

// Members 0 .. n - 1, each of which may take the element of its own number and the next one round.
fn ring(n: u8) -> [u32; 32]
    requires { (1 ≤ n) × (n ≤ 32) }
{
    let mut rows = [0u32; 32];
    for m in 0..n {
        let next = if m + 1 < n { m + 1 } else { 0 };
        rows[m as usize] = with(with(0, m), next);
    }
    rows
}

// Member m may take all elements but the last m: the only assignment is the list turned round.
fn falling_stairs() -> [u32; 32] {
    let mut rows = [0u32; 32];
    let mut row: u32 = 0xffff_ffff;
    for line in &mut rows {
        *line = row;
        row /= 2;
    }
    rows
}

// Every member may take every element.
fn all_ones() -> [u32; 32] {
    [0xffff_ffff; 32]
}

fn rings(rt: &HostRuntime) {
    let r = ring(8);
    show_first(rt, &r, 0, 8, 0, 8);
    let mut moved = ring(8);
    moved[0] = 2; // member 0 may only take element 1: the whole ring turns
    show_first(rt, &moved, 0, 8, 0, 8);
}

fn staircases(rt: &HostRuntime) {
    let mut stairs = ring(8);
    stairs[7] = 1; // the last member may only take element 0: every member before it has to move
    show_first(rt, &stairs, 0, 8, 0, 8);
    let mut full = ring(32);
    full[31] = 1;
    show_first(rt, &full, 0, 32, 0, 32);
    let falling = falling_stairs();
    show_first(rt, &falling, 0, 32, 0, 32);
    show_first(rt, &falling, 16, 16, 0, 32);
}

fn groups(rt: &HostRuntime) {
    let mut rows = [0u32; 32];
    rows[0] = 7;
    rows[1] = 7;
    rows[2] = 7;
    rows[3] = 7;
    show_first(rt, &rows, 0, 4, 0, 8); // 4 members, 3 elements
    show_first(rt, &rows, 0, 3, 0, 8);
    show_first(rt, &rows, 1, 3, 0, 3);
}

fn squares(rt: &HostRuntime) {
    let ones = all_ones();
    show_first(rt, &ones, 0, 32, 0, 32);
    show_first(rt, &ones, 0, 31, 0, 32);
    show_first(rt, &ones, 0, 32, 0, 31);
}

fn edges(rt: &HostRuntime) {
    let ones = all_ones();
    show_first(rt, &ones, 0, 0, 0, 32); // no members
    show_first(rt, &ones, 32, 0, 5, 9);
    show_first(rt, &ones, 0, 0, 7, 7); // no members, no elements
    show_first(rt, &ones, 0, 1, 7, 7); // no elements
    show_first(rt, &ones, 3, 1, 7, 8); // one member on one element
    let none = [0u32; 32];
    show_first(rt, &none, 3, 1, 7, 8);
}

fn middle(rt: &HostRuntime) {
    let mut rows = [0u32; 32];
    rows[2] = 0x1f8; // elements 3 to 8
    rows[3] = 0x018; // elements 3 and 4
    show_first(rt, &rows, 2, 2, 4, 7); // 3 must take 4, the first of the piece
    show_first(rt, &rows, 2, 2, 5, 9); // 3 has no element of the piece
    show_first(rt, &rows, 2, 1, 5, 9);
}

// Chains that a widely used tool gets wrong.
fn chains(rt: &HostRuntime) {
    let mut rows = [0u32; 32];
    rows[0] = 0x8;
    rows[1] = 0x7;
    rows[2] = 0x1;
    rows[3] = 0x8;
    show_first(rt, &rows, 0, 4, 0, 4);
    rows[0] = 0x3;
    rows[1] = 0xc;
    rows[2] = 0x5;
    rows[3] = 0x8;
    show_first(rt, &rows, 0, 4, 0, 4);
    rows[0] = 0x18;
    rows[1] = 0x08;
    show_first(rt, &rows, 0, 2, 0, 5);
}

fn main(rt: HostRuntime) {
    rings(&rt);
    staircases(&rt);
    groups(&rt);
    squares(&rt);
    edges(&rt);
    middle(&rt);
    chains(&rt);
}
