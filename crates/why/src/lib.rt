// Why a list does not match: the matcher's number, and for a superset or a subset the group that is the reason.
#![tactic(auto)]

ghost use Rattle.std.specs.Prelude.{◌≡◌, ◌||◌, eqb};
ghost use Rattle.format.specs.declared.Family.{Family};
ghost use Rattle.grammar.specs.Family.{list_of, Lent};
ghost use Rattle.plans.specs.Plans.{PlanOf};
ghost use Rattle.matcher.specs.Contract.{Planning};
ghost use Rattle.why.specs.Why.{WhyOf};
ghost use Rattle.why.specs.Contract.{GroupFor};

use format::{DONE, Family, LIST_MOST, NO_MATCH, SUBSET, SUPERSET};
use matcher::{length_met, match_planned, refusal_by};
use member_rows::rows_of;
use plans::Plan;
use reasons::{exchanged_reason, reason};
use template::plan_of;

// The matcher's number; and the group as a mask, of a superset bit m for member m, of a subset bit e for element e, 0 where none is given.
#[derive(Drop)]
pub struct Why {
    pub number: u8,
    pub group: u32,
}

// Whether a body of this kind is explained by a group.
fn is_explained(kind: u8) -> bool
    ensures { result ≡ (eqb kind 0x12 || eqb kind 0x13) }
{
    (kind == SUPERSET) | (kind == SUBSET)
}

// The group, 0 where no group is short and where none is asked for.
fn group_of(template: &[u8], plan: Plan, integers: &[i32], floats: &[f64]) -> u32
    requires { Planning template.now plan integers.now floats.now }
    ensures { (f : Family) → PlanOf f template.now plan → Lent f integers.now floats.now → GroupFor f template.now (list_of f integers.now floats.now) result }
{
    let size = integers.len() + floats.len();
    if LIST_MOST < size {
        return 0;
    }
    if refusal_by(plan.number, plan.sort, integers) != DONE {
        return 0;
    }
    if !length_met(plan.low, plan.high, size) {
        return 0;
    }
    let kind = plan.kind;
    if !is_explained(kind) {
        return 0;
    }
    let k = plan.members as u8;
    let n = size as u8;
    let rows = rows_of(template, &plan.places, plan.members, integers, floats);
    if kind == SUPERSET {
        return reason(&rows, k, n);
    }
    exchanged_reason(&rows, k, n)
}

// The matcher's number for a list of this family, and why it does not match. A group shows that nothing obeys, so it is looked for first: the
// search is for lists without one.
fn why_any(template: &[u8], family: Family, integers: &[i32], floats: &[f64]) -> Why
    requires { Lent family integers.now floats.now }
    ensures { WhyOf family template.now (list_of family integers.now floats.now) result.number result.group }
{
    let plan = plan_of(template, family);
    let group = group_of(template, plan, integers, floats);
    if group != 0 {
        return Why {
            number: NO_MATCH,
            group,
        };
    }
    let mut room = [0u8; 32];
    let number = match_planned(template, plan, integers, floats, &mut room);
    Why { number, group }
}

// The matcher's number for this list of integers, and why it does not match.
pub fn why_not(template: &[u8], list: &[i32]) -> Why
    ensures { WhyOf Family.Integers template.now list.now result.number result.group }
{
    let none = [0.0f64; 1];
    why_any(template, Family::Integers, list, &none[..0])
}

// The same for a list of floats.
pub fn why_not_floats(template: &[u8], list: &[f64]) -> Why
    ensures { WhyOf Family.Floats template.now list.now result.number result.group }
{
    let none = [0i32; 1];
    why_any(template, Family::Floats, &none[..0], list)
}
