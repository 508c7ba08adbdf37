// The whole output of an input, put into a lent buffer.
#![tactic(auto)]

ghost use Rattle.std.specs.Prelude.{◌≡◌, ◌+◌, ◌*◌, ◌≤◌, length, drop};
ghost use Rattle.grammar.specs.Read.{got};
ghost use Rattle.lines.specs.Contract.{Wrote};
ghost use Rattle.format.specs.declared.Family.{Family};
ghost use Rattle.plans.specs.Plans.{PlanOf};
ghost use Rattle.stream.specs.Input.{reached};
ghost use Rattle.intake_lines.specs.Output.{lines_from, output};

use format::TEMPLATE_SIZE;
use intake_lines::{answer_next, open_input};
use plans::Plan;

// Puts the lines of the lists from `first` on, by the plan of the template, in front of the buffer, and says how many bytes they have.
fn put_lists(template: &[u8], plan: Plan, input: &[u8], first: usize, out: &mut [u8]) -> usize
    requires { PlanOf Family.Integers template.now plan × (reached input.now ≡ got template.now (drop first input.now)) × (first ≤ length input.now) × (5 * length input.now + 256 ≤ length out.old) }
    ensures { Wrote (lines_from template.now 1 (drop first input.now)) out.old out.new result }
{
    let mut at = first;
    let mut number: u32 = 1;
    let mut filled: usize = 0;
    loop {
        let turn = answer_next(template, plan, input, at, number, &mut out[filled..]);
        filled += turn.wrote;
        let Some(next) = turn.next else {
            return filled;
        };
        at = next;
        number += 1;
    }
}

// Puts the output of the input in front of the buffer, and says how many bytes it has: the line of a refused input, or the lines of its lists.
pub fn render(input: &[u8], out: &mut [u8]) -> usize
    requires { 5 * length input.now + 256 ≤ length out.old }
    ensures { Wrote (output input.now) out.old out.new result }
{
    match open_input(input, out) {
        Ok(lists) => put_lists(
            &input[TEMPLATE_SIZE..lists.next],
            lists.plan,
            input,
            lists.next,
            out,
        ),
        Err(rejected) => rejected.wrote,
    }
}
