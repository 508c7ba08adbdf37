// The entry points under plain names, as C and Rust call them: the static library `exports_c` exports each under its name. What an entry point
// gives beside its number goes to the place that the caller lends for it. No parameter of these functions changes later: requests add functions.
#![tactic(auto)]

ghost use Rattle.std.specs.Prelude.{◌≡◌};
ghost use Rattle.format.specs.declared.Family.{Family};
ghost use Rattle.matching.specs.Answer.{given, match_answer, judge_answer};
ghost use Rattle.integers.specs.Integer.{least, greatest};
ghost use Rattle.forms.specs.Answer.{answer, normalised};
ghost use Rattle.meeting.specs.Meeting.{meeting_of};
ghost use Rattle.why.specs.Why.{WhyOf};

use answers::Normal;
use format::{GREATEST, LEAST};
use matcher::{judge, judge_floats, match_floats, match_list};
use meeting::meeting;
use normal::normalise;
use why::{why_not, why_not_floats};

// Does this list match: the number, and on a match the first witness in byte order at the front of the room.
pub fn intake_match(template: &[u8], list: &[i32], room: &mut [u8]) -> u8
    ensures { given result room.new ≡ match_answer Family.Integers template.now list.now room.old }
{
    match_list(template, list, room)
}

// Does this witness obey: 0 or 1, or the number of a refusal.
pub fn intake_judge(template: &[u8], list: &[i32], witness: &[u8]) -> u8
    ensures { result ≡ judge_answer Family.Integers template.now list.now witness.now }
{
    judge(template, list, witness)
}

// The normal form of one element template at the front of the room, and its length; with any number but 0 the length is 0. Its type is all 32-bit
// integers.
pub fn intake_normalise(template: &[u8], room: &mut [u8], length: &mut usize) -> u8
    ensures { answer result length.new room.new ≡ normalised least greatest template.now room.old }
{
    let given: Normal = normalise(template, LEAST, GREATEST, room);
    *length = given.length;
    given.number
}

// The same under a type, the integers from `lower` to `upper`.
pub fn intake_normalise_typed(
    template: &[u8],
    lower: i32,
    upper: i32,
    room: &mut [u8],
    length: &mut usize,
) -> u8
    ensures { answer result length.new room.new ≡ normalised lower upper template.now room.old }
{
    let form: Normal = normalise(template, lower, upper, room);
    *length = form.length;
    form.number
}

// The meeting of two normal forms under a type, the normal form of what both match, in the same manner.
pub fn intake_meeting(
    first: &[u8],
    second: &[u8],
    lower: i32,
    upper: i32,
    room: &mut [u8],
    length: &mut usize,
) -> u8
    ensures { answer result length.new room.new ≡ meeting_of lower upper first.now second.now room.old }
{
    let met: Normal = meeting(first, second, lower, upper, room);
    *length = met.length;
    met.number
}

// The matcher's number, and the group that is the reason as a mask, 0 where none is given.
pub fn intake_why_not(template: &[u8], list: &[i32], group: &mut u32) -> u8
    ensures { WhyOf Family.Integers template.now list.now result group.new }
{
    let given = why_not(template, list);
    *group = given.group;
    given.number
}

// The same three for a list of floats and a template of floats.
pub fn intake_match_floats(template: &[u8], list: &[f64], room: &mut [u8]) -> u8
    ensures { given result room.new ≡ match_answer Family.Floats template.now list.now room.old }
{
    match_floats(template, list, room)
}

pub fn intake_judge_floats(template: &[u8], list: &[f64], witness: &[u8]) -> u8
    ensures { result ≡ judge_answer Family.Floats template.now list.now witness.now }
{
    judge_floats(template, list, witness)
}

pub fn intake_why_not_floats(template: &[u8], list: &[f64], group: &mut u32) -> u8
    ensures { WhyOf Family.Floats template.now list.now result group.new }
{
    let reason = why_not_floats(template, list);
    *group = reason.group;
    reason.number
}
