// When a list matches: the first witness in byte order, and the judge of an offered one. Both go by the plan of the template, which is made once
// for as many lists as are asked about. A list is lent as integers and floats, of which one is empty.
#![tactic(auto)]

ghost use Rattle.std.specs.Prelude.{◌≡◌, ◌&&◌, cond, ◌≤◌, leb, length};
ghost use Rattle.format.specs.declared.Family.{Family};
ghost use Rattle.grammar.specs.Family.{list_of, Lent, some_outside};
ghost use Rattle.sorts.specs.Sorts.{lower_of, upper_of};
ghost use Rattle.plans.specs.Plans.{PlanOf};
ghost use Rattle.matching.specs.Answer.{given, match_answer, judge_answer};
ghost use Rattle.matcher.specs.Contract.{refusal_by, Copied, Planning};

use format::{
    CONTAINMENT, DONE, ELEMENT_OUTSIDE, Family, LIST_MOST, LIST_TOO_LONG, NO_MATCH, OTHER_LENGTH,
    ROOM_TOO_SHORT, TEMPLATE_MOST, TOO_LONG,
};
use obeying::body_met;
use pairs::{WRONG, left_over};
use plans::Plan;
use sheets::containment_passes;
use sorts::{Sort, WHOLE, reaches};
use template::plan_of;
use witnesses::first_witness;

// Whether a list of n elements meets the length attribute.
pub fn length_met(low: u8, high: u8, n: usize) -> bool
    ensures { result ≡ (leb low n && leb n high) }
{
    (low as usize <= n) & (n <= high as usize)
}

// Whether an element of the list is outside the type.
fn some_outside(sort: Sort, list: &[i32]) -> bool
    ensures { result ≡ some_outside (lower_of sort) (upper_of sort) list.now }
{
    list.iter().any(|x| reaches(sort, *x, *x))
}

// The number by which a list of integers is refused after the scan, or 0: the template's own, or 17 where an element is outside its type.
pub fn refusal_by(own: u8, sort: Sort, list: &[i32]) -> u8
    ensures { result ≡ refusal_by own sort list.now }
{
    if (own != DONE) | (sort.word == WHOLE) {
        return own;
    }
    if some_outside(sort, list) {
        return ELEMENT_OUTSIDE;
    }
    DONE
}

// Writes the first n bytes of w into the room; no other byte changes.
fn write_witness(w: [u8; 32], n: usize, room: &mut [u8])
    requires { (n ≤ 32) × (n ≤ length room.old) }
    ensures { Copied n w room.old room.new }
{
    room[..n].copy_from_slice(&w[..n]);
}

// The number for this list, and on a match the first witness in byte order at the front of the room, one byte for each element; by the plan
// of the template.
pub fn match_planned(
    template: &[u8],
    plan: Plan,
    integers: &[i32],
    floats: &[f64],
    room: &mut [u8],
) -> u8
    requires { Planning template.now plan integers.now floats.now }
    ensures { (f : Family) → PlanOf f template.now plan → Lent f integers.now floats.now → given result room.new ≡ match_answer f template.now (list_of f integers.now floats.now) room.old }
{
    if TEMPLATE_MOST < template.len() {
        return TOO_LONG;
    }
    let n = integers.len() + floats.len();
    if LIST_MOST < n {
        return LIST_TOO_LONG;
    }
    if room.len() < n {
        return ROOM_TOO_SHORT;
    }
    // A plan that says all the integers is of an accepted template, and refuses no list.
    let sort = plan.sort;
    if sort.word != WHOLE {
        let number = refusal_by(plan.number, sort, integers);
        if number != DONE {
            return number;
        }
    }
    if !length_met(plan.low, plan.high, n) {
        return NO_MATCH;
    }
    let places = plan.places;
    let blocks = plan.blocks;
    let Some(w) = first_witness(
        template,
        &places,
        plan.members,
        plan.kind,
        &blocks,
        plan.count,
        integers,
        floats,
    ) else {
        return NO_MATCH;
    };
    write_witness(w, n, room);
    DONE
}

// The same for one list of this family, by a plan that is made for it.
fn match_any(
    template: &[u8],
    family: Family,
    integers: &[i32],
    floats: &[f64],
    room: &mut [u8],
) -> u8
    requires { Lent family integers.now floats.now }
    ensures { given result room.new ≡ match_answer family template.now (list_of family integers.now floats.now) room.old }
{
    let plan = plan_of(template, family);
    match_planned(template, plan, integers, floats, room)
}

// The number for this list of integers, and on a match the first witness in byte order at the front of the room, one byte for each element.
pub fn match_list(template: &[u8], list: &[i32], room: &mut [u8]) -> u8
    ensures { given result room.new ≡ match_answer Family.Integers template.now list.now room.old }
{
    let none = [0.0f64; 1];
    match_any(template, Family::Integers, list, &none[..0], room)
}

// The same for a list of floats.
pub fn match_floats(template: &[u8], list: &[f64], room: &mut [u8]) -> u8
    ensures { given result room.new ≡ match_answer Family.Floats template.now list.now room.old }
{
    let none = [0i32; 1];
    match_any(template, Family::Floats, &none[..0], list, room)
}

// The judge's number for a witness that obeys, or does not.
fn judged(obeys: bool) -> u8
    ensures { result ≡ cond obeys 0 1 }
{
    if obeys { DONE } else { NO_MATCH }
}

// Whether the offered witness obeys: 0 or 1, or the number of a refusal; by the plan of the template.
pub fn judge_planned(
    template: &[u8],
    plan: Plan,
    integers: &[i32],
    floats: &[f64],
    witness: &[u8],
) -> u8
    requires { Planning template.now plan integers.now floats.now }
    ensures { (f : Family) → PlanOf f template.now plan → Lent f integers.now floats.now → result ≡ judge_answer f template.now (list_of f integers.now floats.now) witness.now }
{
    if TEMPLATE_MOST < template.len() {
        return TOO_LONG;
    }
    let size = integers.len() + floats.len();
    if LIST_MOST < size {
        return LIST_TOO_LONG;
    }
    if witness.len() != size {
        return OTHER_LENGTH;
    }
    let sort = plan.sort;
    if sort.word != WHOLE {
        let refusal = refusal_by(plan.number, sort, integers);
        if refusal != DONE {
            return refusal;
        }
    }
    if !length_met(plan.low, plan.high, size) {
        return NO_MATCH;
    }
    let left = left_over(
        template,
        &plan.places,
        plan.members,
        integers,
        floats,
        witness,
    );
    if left == WRONG {
        // Under sheet 1 a subset may give a member twice. This is asked last: it is rare, and every other witness is judged faster.
        if plan.kind == CONTAINMENT {
            return judged(containment_passes(
                template,
                &plan.places,
                plan.members,
                integers,
                floats,
                witness,
            ));
        }
        return NO_MATCH;
    }
    judged(body_met(plan.kind, &plan.blocks, plan.count, left, witness))
}

// The same for one list of this family, by a plan that is made for it.
fn judge_any(
    template: &[u8],
    family: Family,
    integers: &[i32],
    floats: &[f64],
    witness: &[u8],
) -> u8
    requires { Lent family integers.now floats.now }
    ensures { result ≡ judge_answer family template.now (list_of family integers.now floats.now) witness.now }
{
    let plan = plan_of(template, family);
    judge_planned(template, plan, integers, floats, witness)
}

// Whether the witness offered for this list of integers obeys: 0 or 1, or the number of a refusal.
pub fn judge(template: &[u8], list: &[i32], witness: &[u8]) -> u8
    ensures { result ≡ judge_answer Family.Integers template.now list.now witness.now }
{
    let none = [0.0f64; 1];
    judge_any(template, Family::Integers, list, &none[..0], witness)
}

// The same for a list of floats.
pub fn judge_floats(template: &[u8], list: &[f64], witness: &[u8]) -> u8
    ensures { result ≡ judge_answer Family.Floats template.now list.now witness.now }
{
    let none = [0i32; 1];
    judge_any(template, Family::Floats, &none[..0], list, witness)
}
