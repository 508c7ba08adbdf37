// The functions of `exports` for C and Rust to link, each with the clauses that it has there: a crate is a library or a static library, not both. A
// slice arrives as a pointer and a length.
#![tactic(auto)]

ghost use Rattle.std.specs.Prelude.{◌≡◌};
ghost use Rattle.format.specs.declared.Family.{Family};
ghost use Rattle.matching.specs.Answer.{given, match_answer, judge_answer};
ghost use Rattle.integers.specs.Integer.{least, greatest};
ghost use Rattle.forms.specs.Answer.{answer, normalised};
ghost use Rattle.meeting.specs.Meeting.{meeting_of};
ghost use Rattle.why.specs.Why.{WhyOf};

#[unsafe(no_mangle)]
pub extern "C" fn intake_match(template: &[u8], list: &[i32], room: &mut [u8]) -> u8
    ensures { given result room.new ≡ match_answer Family.Integers template.now list.now room.old }
{
    exports::intake_match(template, list, room)
}

#[unsafe(no_mangle)]
pub extern "C" fn intake_judge(template: &[u8], list: &[i32], witness: &[u8]) -> u8
    ensures { result ≡ judge_answer Family.Integers template.now list.now witness.now }
{
    exports::intake_judge(template, list, witness)
}

#[unsafe(no_mangle)]
pub extern "C" fn intake_normalise(template: &[u8], room: &mut [u8], length: &mut usize) -> u8
    ensures { answer result length.new room.new ≡ normalised least greatest template.now room.old }
{
    exports::intake_normalise(template, room, length)
}

#[unsafe(no_mangle)]
pub extern "C" fn intake_normalise_typed(
    template: &[u8],
    lower: i32,
    upper: i32,
    room: &mut [u8],
    length: &mut usize,
) -> u8
    ensures { answer result length.new room.new ≡ normalised lower upper template.now room.old }
{
    exports::intake_normalise_typed(template, lower, upper, room, length)
}

#[unsafe(no_mangle)]
pub extern "C" fn intake_meeting(
    first: &[u8],
    second: &[u8],
    lower: i32,
    upper: i32,
    room: &mut [u8],
    length: &mut usize,
) -> u8
    ensures { answer result length.new room.new ≡ meeting_of lower upper first.now second.now room.old }
{
    exports::intake_meeting(first, second, lower, upper, room, length)
}

#[unsafe(no_mangle)]
pub extern "C" fn intake_why_not(template: &[u8], list: &[i32], group: &mut u32) -> u8
    ensures { WhyOf Family.Integers template.now list.now result group.new }
{
    exports::intake_why_not(template, list, group)
}

#[unsafe(no_mangle)]
pub extern "C" fn intake_match_floats(template: &[u8], list: &[f64], room: &mut [u8]) -> u8
    ensures { given result room.new ≡ match_answer Family.Floats template.now list.now room.old }
{
    exports::intake_match_floats(template, list, room)
}

#[unsafe(no_mangle)]
pub extern "C" fn intake_judge_floats(template: &[u8], list: &[f64], witness: &[u8]) -> u8
    ensures { result ≡ judge_answer Family.Floats template.now list.now witness.now }
{
    exports::intake_judge_floats(template, list, witness)
}

#[unsafe(no_mangle)]
pub extern "C" fn intake_why_not_floats(template: &[u8], list: &[f64], group: &mut u32) -> u8
    ensures { WhyOf Family.Floats template.now list.now result group.new }
{
    exports::intake_why_not_floats(template, list, group)
}
