// A plan as four numbers, for the exported functions of the rewrite: the layout, the cell at which the block's mark begins, the stores made, and
// the stores in all. The fourth is for the caller; a step takes the first three as they are, and works out the fourth anew.
ghost use Rattle.std.specs.Prelude.{◌≡◌};
ghost use Rattle.calls.specs.Refusals.{checked_number};
ghost use Rattle.station.specs.Outcomes.{plan_numbers, numbered_plan, noted, moved};

use calls::Refusal;
use rewrite::Plan;

// A plan's numbers, where the image has `bytes` bytes.
fn plan_numbers(plan: Plan, bytes: usize) -> [u32; 4]
    ensures { result ≡ plan_numbers plan bytes }
{
    let stores = rewrite::stores_in_all(plan, bytes);
    [plan.layout, plan.place, plan.made, stores]
}

// The plan that the numbers say. The fourth is not looked at.
pub(crate) fn numbered_plan(numbers: [u32; 4]) -> Plan
    ensures { result ≡ numbered_plan numbers }
{
    Plan {
        layout: numbers[0],
        place: numbers[1],
        made: numbers[2],
    }
}

// What a request's answer leaves in the plan: its numbers, or zeros.
pub(crate) fn noted(answer: Result<Plan, Refusal>, bytes: usize) -> [u32; 4]
    ensures { result ≡ noted answer bytes }
{
    match answer {
        Ok(plan) => plan_numbers(plan, bytes),
        Err(_) => [0; 4],
    }
}

// The number of a step's answer. The plan's numbers are moved on, or stay as they were: they are stored only then, since a number that is held
// through a step costs it a register.
pub(crate) fn move_on(answer: Result<Plan, Refusal>, bytes: usize, plan: &mut [u32; 4]) -> u8
    ensures { (result ≡ checked_number answer) × (plan.new ≡ moved answer plan.old bytes) }
{
    match answer {
        Ok(next) => {
            *plan = plan_numbers(next, bytes);
            0
        }
        Err(refusal) => u8::from(refusal),
    }
}
