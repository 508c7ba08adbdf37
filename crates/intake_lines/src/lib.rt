// What the program prints, line by line: first the input is opened, which prints the refusal of the whole input or nothing, then each list is answered.
#![tactic(auto)]

ghost use Rattle.std.specs.Prelude.{◌≤◌, true, length, drop, is_some, unwrap_or, MatchResult};
ghost use Rattle.lines.specs.Contract.{LineFits, Wrote};
ghost use Rattle.format.specs.declared.Family.{Family};
ghost use Rattle.plans.specs.Plans.{PlanOf};
ghost use Rattle.intake_lines.specs.Output.{list_line, turn};
ghost use Rattle.intake_lines.specs.Contract.{InputPlan, Headed, Refused, StepFits, Turned};

use format::{DONE, Family, INPUT_MOST, MISSING, TEMPLATE, TEMPLATE_SIZE, TOO_LONG};
use lines::put_line;
use matcher::match_planned;
use plans::Plan;
use stream::{read_list, record_fault, template_end};
use template::{no_plan, plan_of};

// The plan of the input's template; where that is not reached, the plan of bytes that are refused with the number of the fault.
fn input_plan(input: &[u8]) -> Plan
    ensures { InputPlan input.now result }
{
    if INPUT_MOST < input.len() {
        return no_plan(TOO_LONG);
    }
    let code = record_fault(input, 0, TEMPLATE, TEMPLATE_SIZE);
    if code != DONE {
        return no_plan(code);
    }
    let end = template_end(input);
    if input.len() < end {
        return no_plan(MISSING);
    }
    plan_of(&input[TEMPLATE_SIZE..end], Family::Integers)
}

// The lists of an input: the place of the first one, and the plan of the template.
#[derive(Clone, Copy)]
pub struct Opened {
    pub next: usize,
    pub plan: Plan,
}

// What is left of a refused input: how many bytes its line has, and the number that it is refused by.
#[derive(Clone, Copy)]
pub struct Rejected {
    pub wrote: usize,
    pub number: u8,
}

// The place of the first list and the plan for all of them: the template stands from 3 to there. Of a refused input the line is written.
pub fn open_input(input: &[u8], out: &mut [u8]) -> Result<Opened, Rejected>
    requires { 256 ≤ length out.old }
    ensures { MatchResult result (λ o. Headed input.now out.old out.new 0 o.next true o.plan) (λ r. Refused input.now out.old out.new r.wrote r.number) }
{
    let plan = input_plan(input);
    if plan.number != DONE {
        let wrote = put_line(out, 0, plan.number, 0, &input[..0]);
        return Err(Rejected {
            wrote,
            number: plan.number,
        });
    }
    Ok(Opened {
        next: template_end(input),
        plan,
    })
}

// How far a call came: how many bytes it wrote, and the place of the next list, where there is a next turn.
#[derive(Clone, Copy)]
pub struct Progress {
    pub wrote: usize,
    pub next: Option<usize>,
}

// Puts the line of the list xs, which has this number, in front of the buffer, and says how many bytes it has.
fn put_answer(template: &[u8], plan: Plan, xs: &[i32], number: u32, out: &mut [u8]) -> usize
    requires { PlanOf Family.Integers template.now plan × LineFits number (length xs.now) out.old }
    ensures { Wrote (list_line template.now number xs.now) out.old out.new result }
{
    let mut room = [0u8; 32];
    let none = [0.0f64; 1];
    let answer = match_planned(template, plan, xs, &none[..0], &mut room);
    let n = xs.len();
    if answer == DONE {
        return put_line(out, number, 0, n, &room[..n]);
    }
    put_line(out, number, answer, n, &room[..0])
}

// One list, one line: the line of the list at `at`, which has this number, or of its fault; nothing where the input has ended. It goes by the
// plan of the template, which is made once.
pub fn answer_next(
    template: &[u8],
    plan: Plan,
    input: &[u8],
    at: usize,
    number: u32,
    out: &mut [u8],
) -> Progress
    requires { PlanOf Family.Integers template.now plan × StepFits at number input.now out.old }
    ensures { Turned (turn template.now number (drop at input.now)) input.now at out.old out.new result.wrote (unwrap_or result.next at) (is_some result.next) }
{
    if at == input.len() {
        return Progress {
            wrote: 0,
            next: None,
        };
    }
    let list = match read_list(input, at) {
        Ok(list) => list,
        Err(code) => {
            let wrote = put_line(out, number, code, 0, &input[..0]);
            return Progress { wrote, next: None };
        }
    };
    let n = list.n;
    let xs = list.xs;
    let wrote = put_answer(template, plan, &xs[..n], number, out);
    Progress {
        wrote,
        next: Some(list.next),
    }
}
