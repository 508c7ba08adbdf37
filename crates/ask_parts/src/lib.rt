// The requests of the test program `ask`, read from standard input, and the lines of their answers, written to standard output. The
// program's header says the format of both.
#![tactic(auto)]

ghost use Rattle.std.specs.Prelude.{◌+◌, ◌≤◌, IfOk, length};
ghost use Rattle.ask_parts.specs.Kind.{Decodes};

use floats::float_at;
use format::Family;
use integers::int_at;
use std::io::{Read, Write};

// What a request asks for. Its first byte says which.
#[derive(Clone, Copy, PartialEq, Eq)]
pub enum Kind {
    Match,
    Judge,
    Normalise,
    Meeting,
    WhyNot,
}

// Why no request follows: the input has ended, or it goes on with something else.
#[derive(Clone, Copy, PartialEq, Eq)]
pub enum Stop {
    End,
    Bad,
}

impl TryFrom<u8> for Kind {
    type Error = Stop;

    ghost try_from_gives = { Decodes };

    fn try_from(byte: u8) -> Result<Kind, Stop> {
        match byte {
            1 => Ok(Kind::Match),
            2 => Ok(Kind::Judge),
            3 => Ok(Kind::Normalise),
            4 => Ok(Kind::Meeting),
            7 => Ok(Kind::WhyNot),
            _ => Err(Stop::Bad),
        }
    }
}

// The bounds of the counts. Of the bytes of a template, and of each form of a meeting.
const ASKED_TEMPLATE_MOST: usize = 5000;

const ASKED_LIST_MOST: usize = 64;

// Of the bytes of a room, and of a witness.
const ASKED_ROOM_MOST: usize = 1024;

// The type of a normal form or a meeting: the integers from `lower` to `upper`.
#[derive(Clone, Copy)]
pub struct Bounds {
    pub lower: i32,
    pub upper: i32,
}

// What stands at the front of the arrays that are lent: template bytes, or the first form of a meeting and the bytes of the second, integers or
// floats as the family says, and the bytes of the room or the witness.
#[derive(Clone, Copy)]
pub struct Request {
    pub kind: Kind,
    pub family: Family,
    pub template: usize,
    pub second: usize,
    pub bounds: Bounds,
    pub list: usize,
    pub room: usize,
}

// What an entry point gives back: a number, and with it the length of a normal form or the mask of a group.
#[derive(Clone, Copy)]
pub enum Answer {
    Match(u8),
    Judgement(u8),
    Form(u8, usize),
    Reason(u8, u32),
}

// Fills the part, where the input has so many bytes and can be read.
fn read_full(rt: &HostRuntime, part: &mut [u8]) -> Result<(), Stop> {
    match rt.stdin().read_exact(part) {
        Ok(()) => Ok(()),
        Err(_) => Err(Stop::Bad),
    }
}

fn next_byte(rt: &HostRuntime) -> Result<u8, Stop> {
    let mut one = [0u8; 1];
    read_full(rt, &mut one)?;
    Ok(one[0])
}

// The next count, of two bytes, which is to be at most `most`.
fn next_count(rt: &HostRuntime, most: usize) -> Result<usize, Stop>
    ensures { IfOk result (λ n. n ≤ most) }
{
    let mut two = [0u8; 2];
    read_full(rt, &mut two)?;
    let n = usize::from(u16::from_le_bytes(two));
    if most < n {
        return Err(Stop::Bad);
    }
    Ok(n)
}

// Reads `n` bytes to the front of `part`, where there is room for them.
fn read_bytes(rt: &HostRuntime, part: &mut [u8], n: usize) -> Result<(), Stop> {
    if part.len() < n {
        return Err(Stop::Bad);
    }
    read_full(rt, &mut part[..n])
}

// Reads a count and as many bytes to the front of `part`, and gives back the count.
fn read_part(rt: &HostRuntime, part: &mut [u8], most: usize) -> Result<usize, Stop>
    ensures { IfOk result (λ n. n ≤ most) }
{
    let n = next_count(rt, most)?;
    read_bytes(rt, part, n)?;
    Ok(n)
}

// An element of a list, as a request has it.
trait Element: Copy {
    // How many bytes it has.
    fn size() -> usize
        ensures { result ≤ 8 };

    // The one whose bytes stand at `at`.
    fn read(bytes: &[u8], at: usize) -> Self
        requires { at + 8 ≤ length bytes.now };
}

impl Element for i32 {
    fn size() -> usize {
        4
    }

    fn read(bytes: &[u8], at: usize) -> i32 {
        int_at(bytes, at)
    }
}

impl Element for f64 {
    fn size() -> usize {
        8
    }

    fn read(bytes: &[u8], at: usize) -> f64 {
        float_at(bytes, at)
    }
}

// Reads `n` elements to the front of the list, where there is room for them.
fn read_elements<E: Element>(rt: &HostRuntime, list: &mut [E], n: usize) -> Result<(), Stop>
    requires { n ≤ 64 }
{
    let mut bytes = [0u8; 520];
    let size = E::size();
    if list.len() < n {
        return Err(Stop::Bad);
    }
    read_full(rt, &mut bytes[..size * n])?;
    for i in 0..n {
        list[i] = E::read(&bytes, size * i);
    }
    Ok(())
}

// Whether a request of this kind is of a type and not of a list.
fn is_of_type(kind: Kind) -> bool {
    (kind == Kind::Normalise) | (kind == Kind::Meeting)
}

// Reads a count and as many elements, and gives back the count. What is of a type has no list.
fn read_list(
    rt: &HostRuntime,
    kind: Kind,
    family: Family,
    integers: &mut [i32],
    floats: &mut [f64],
) -> Result<usize, Stop>
    ensures { IfOk result (λ n. n ≤ 64) }
{
    if is_of_type(kind) {
        return Ok(0);
    }
    let n = next_count(rt, ASKED_LIST_MOST)?;
    match family {
        Family::Integers => read_elements(rt, integers, n)?,
        Family::Floats => read_elements(rt, floats, n)?,
    }
    Ok(n)
}

// Reads the family. What is of a type is of integers only.
fn read_family(rt: &HostRuntime, kind: Kind) -> Result<Family, Stop> {
    if is_of_type(kind) {
        return Ok(Family::Integers);
    }
    match next_byte(rt)? {
        0 => Ok(Family::Integers),
        1 => Ok(Family::Floats),
        _ => Err(Stop::Bad),
    }
}

// Reads a count and as many bytes of the second form. Only a meeting has one.
fn read_second(rt: &HostRuntime, kind: Kind, second: &mut [u8]) -> Result<usize, Stop>
    ensures { IfOk result (λ n. n ≤ 5000) }
{
    if kind == Kind::Meeting {
        return read_part(rt, second, ASKED_TEMPLATE_MOST);
    }
    Ok(0)
}

// Reads the bounds of the type, where there is one.
fn read_bounds(rt: &HostRuntime, kind: Kind) -> Result<Bounds, Stop> {
    let mut both = [0i32; 2];
    if is_of_type(kind) {
        read_elements(rt, &mut both, 2)?;
    }
    Ok(Bounds {
        lower: both[0],
        upper: both[1],
    })
}

// Reads the last count, and the witness of a judgement.
fn read_room(rt: &HostRuntime, kind: Kind, room: &mut [u8]) -> Result<usize, Stop>
    ensures { IfOk result (λ n. n ≤ 1024) }
{
    match kind {
        Kind::WhyNot => Ok(0),
        Kind::Judge => read_part(rt, room, ASKED_ROOM_MOST),
        _ => next_count(rt, ASKED_ROOM_MOST),
    }
}

// The kind of the next request. The input may end in its place.
fn next_kind(rt: &HostRuntime) -> Result<Kind, Stop> {
    match next_byte(rt) {
        Ok(byte) => Kind::try_from(byte),
        Err(_) => Err(Stop::End),
    }
}

// Reads the next request.
pub fn read_request(
    rt: &HostRuntime,
    template: &mut [u8],
    second: &mut [u8],
    integers: &mut [i32],
    floats: &mut [f64],
    room: &mut [u8],
) -> Result<Request, Stop>
    ensures { IfOk result (λ r. (r.template ≤ 5000) × (r.second ≤ 5000) × (r.list ≤ 64) × (r.room ≤ 1024)) }
{
    let kind = next_kind(rt)?;
    let family = read_family(rt, kind)?;
    let t = read_part(rt, template, ASKED_TEMPLATE_MOST)?;
    let s = read_second(rt, kind, second)?;
    let bounds = read_bounds(rt, kind)?;
    let n = read_list(rt, kind, family, integers, floats)?;
    let r = read_room(rt, kind, room)?;
    Ok(Request {
        kind,
        family,
        template: t,
        second: s,
        bounds,
        list: n,
        room: r,
    })
}

// Writes the bytes to standard output. Where it takes no more, the rest goes unseen.
fn write(rt: &HostRuntime, bytes: &[u8]) {
    let _ = rt.stdout().write_all(bytes);
}

// The digit of the low four bits.
fn hex_digit(byte: u8) -> u8 {
    let digit = byte % 16;
    if digit < 10 {
        b'0' + digit
    } else {
        b'a' + (digit - 10)
    }
}

// All of the bytes in hexadecimal, `-` where there is none, and the end of the line, by one write: a `print!` for each byte would be a write
// for each. No room has more than 1,024 bytes: the second test only says so to the proof.
fn print_room(rt: &HostRuntime, room: &[u8]) {
    if room.is_empty() {
        write(rt, b"-\n");
        return;
    }
    if ASKED_ROOM_MOST < room.len() {
        return;
    }
    let mut line = [b'\n'; 2049];
    for (i, byte) in room.iter().enumerate() {
        line[2 * i] = hex_digit(*byte / 16);
        line[2 * i + 1] = hex_digit(*byte);
    }
    write(rt, &line[..2 * room.len() + 1]);
}

// Eight digits of the mask, `-` where no group is given, and the end of the line.
fn print_group(rt: &HostRuntime, group: u32) {
    if group == 0 {
        write(rt, b"-\n");
        return;
    }
    let _ = println!(rt; "{group:08x}");
}

// Says that the input goes on with no request.
pub fn print_bad(rt: &HostRuntime) {
    write(rt, b"bad\n");
}

// Prints the line of the answer to a request.
pub fn print_line(rt: &HostRuntime, answer: Answer, room: &[u8]) {
    match answer {
        Answer::Match(number) => {
            let _ = print!(rt; "{number} ");
            print_room(rt, room);
        }
        Answer::Judgement(number) => {
            let _ = println!(rt; "{number}");
        }
        Answer::Form(number, length) => {
            let _ = print!(rt; "{number} {length} ");
            print_room(rt, room);
        }
        Answer::Reason(number, group) => {
            let _ = print!(rt; "{number} ");
            print_group(rt, group);
        }
    }
}
