// Lets anyone try the matcher, the judge, the normaliser, the meeting and the reason for no match on bytes.
//
// Standard input is a run of requests, and each gets one line. Every u16 has its low byte first.
//   1, FAMILY, u16 t, t template bytes, u16 n, n elements, u16 r: a match. A room of r bytes, each 165,
//     is lent, and the line is `NUMBER ROOM`.
//   2, FAMILY, u16 t, t template bytes, u16 n, n elements, u16 w, w witness bytes: a judgement. The line
//     is `NUMBER`.
//   3, u16 t, t template bytes, the lower and the upper bound of the type, u16 r: a normal form. The line is
//     `NUMBER LENGTH ROOM`.
//   4, u16 p, p bytes of the first form, u16 q, q bytes of the second, the lower and the upper bound of the type, u16 r: a meeting. The
//     line is `NUMBER LENGTH ROOM`.
//   7, FAMILY, u16 t, t template bytes, u16 n, n elements: why not. The line is `NUMBER GROUP`, the mask in
//     eight hexadecimal digits, `-` where no group is given.
// FAMILY is a byte: 0, and the elements are integers of four bytes, or 1, and they are floats of eight; every
// pattern of a NaN is the same element. A bound is an integer. ROOM is the whole room afterwards in hexadecimal, `-` where r is 0. A
// request over its bounds (t, p and q 5,000, n 64, r and w 1,024), another first byte or family, and a request that
// ends early get the line `bad`, and the run ends.
#![tactic(auto)]

use answers::Normal;
use ask_parts::{Answer, Kind, Request, Stop, print_bad, print_line, read_request};
use format::Family;
use matcher::{judge, judge_floats, match_floats, match_list};
use meeting::meeting;
use normal::normalise;
use why::{Why, why_not, why_not_floats};

// Each byte of a room before a call.
const UNTOUCHED: u8 = 165;

// What the normaliser and the meeting give back.
fn of_form(form: Normal) -> Answer {
    Answer::Form(form.number, form.length)
}

// What the reason for no match gives back.
fn of_reason(why: Why) -> Answer {
    Answer::Reason(why.number, why.group)
}

// What the entry point for a request about a list of integers gives back. The room of a judgement holds the witness.
fn of_integers(
    request: Request,
    template: &[u8],
    second: &[u8],
    list: &[i32],
    room: &mut [u8],
) -> Answer {
    let bounds = request.bounds;
    match request.kind {
        Kind::Match => Answer::Match(match_list(template, list, room)),
        Kind::Judge => Answer::Judgement(judge(template, list, room)),
        Kind::Normalise => of_form(normalise(template, bounds.lower, bounds.upper, room)),
        Kind::Meeting => of_form(meeting(template, second, bounds.lower, bounds.upper, room)),
        Kind::WhyNot => of_reason(why_not(template, list)),
    }
}

// What the entry point for a request gives back. What is of a type is of integers.
fn answer_of(
    request: Request,
    template: &[u8],
    second: &[u8],
    integers: &[i32],
    floats: &[f64],
    room: &mut [u8],
) -> Answer {
    match (request.family, request.kind) {
        (Family::Floats, Kind::Match) => Answer::Match(match_floats(template, floats, room)),
        (Family::Floats, Kind::Judge) => Answer::Judgement(judge_floats(template, floats, room)),
        (Family::Floats, Kind::WhyNot) => of_reason(why_not_floats(template, floats)),
        _ => of_integers(request, template, second, integers, room),
    }
}

// Takes the next request and prints its line, or says why there is none. Both lists have as many elements as were read; only that of the family is
// looked at.
fn take_request(rt: &HostRuntime) -> Result<(), Stop> {
    let mut template = [0u8; 5000];
    let mut second = [0u8; 5000];
    let mut integers = [0i32; 64];
    let mut floats = [0.0f64; 64];
    let mut room = [UNTOUCHED; 1024];
    let request = read_request(
        rt,
        &mut template,
        &mut second,
        &mut integers,
        &mut floats,
        &mut room,
    )?;
    let answer = answer_of(
        request,
        &template[..request.template],
        &second[..request.second],
        &integers[..request.list],
        &floats[..request.list],
        &mut room[..request.room],
    );
    print_line(rt, answer, &room[..request.room]);
    Ok(())
}

// Nothing says that the input ends, so the turns are counted up to a number that no run reaches.
fn main(rt: HostRuntime) {
    for _ in 0..u64::MAX {
        match take_request(&rt) {
            Ok(()) => {}
            Err(Stop::Bad) => {
                print_bad(&rt);
                return;
            }
            Err(Stop::End) => return,
        }
    }
}
