// The exported step of a running race.

ghost use Rattle.std.specs.Prelude.{◌≡◌, ◌≢◌, ◌≤◌, Some};
ghost use Rattle.he_next.specs.Faults.{IsNextFault};
ghost use Rattle.he_next.specs.declared.fault.NextFault.TheVariants as faults;
ghost use Rattle.he_c.specs.Answers.{fault_kind, fault_line, no_details};
ghost use Rattle.he_c.specs.Steps.{LeavesFault, LeavesStep, no_step};
ghost use Rattle.he_c.specs.declared.codes.TheConstants.{DONE, FAULT, NOT_ONE_RACE, NO_MEMORY, BUFFER_TOO_SMALL};

use crate::answer::{CallDetails, NOTHING};
use crate::codes::{DONE, FAULT, NO_MEMORY, NOT_ONE_RACE, fault_kind, fault_line};
use crate::step::{NO_STEP, StepNumbers, numbers_of};
use he_inputs::InputFault;
use he_next::{NextFault, next_step};
use std::alloc::Global;

/// Returns the action that is due at tick `now` in the race of the record so far, in which `started` attempts were
/// started.
#[unsafe(no_mangle)]
pub extern "C" fn he_next(
    alloc: Global,
    lines: &[u8],
    started: u64,
    now: u64,
    step: &mut StepNumbers,
    details: &mut CallDetails,
) -> u32
    ensures done { result ≡ DONE → LeavesStep lines.now started now step.new details.new }
    ensures fault { result ≡ FAULT → LeavesFault lines.now started now details.new }
    ensures not_one { result ≡ NOT_ONE_RACE → IsNextFault lines.now started now faults.NotOne }
    ensures none { result ≢ DONE → step.new ≡ no_step }
    ensures silent { result ≢ FAULT → details.new ≡ no_details }
    ensures known { result ≤ NOT_ONE_RACE }
    ensures fits { result ≢ BUFFER_TOO_SMALL }
{
    *step = NO_STEP;
    *details = NOTHING;
    match next_step(alloc, lines, started as usize, now) {
        Ok(found) => {
            *step = numbers_of(found);
            DONE
        }
        Err(NextFault::Record(fault)) => {
            *details = fault_details(fault);
            FAULT
        }
        Err(NextFault::NotOne) => NOT_ONE_RACE,
        Err(NextFault::Memory) => NO_MEMORY,
    }
}

fn fault_details(fault: InputFault) -> CallDetails
    ensures { result ≡ record { length = 0; line = fault_line (Some fault); kind = fault_kind (Some fault) } }
{
    CallDetails {
        length: 0,
        line: fault_line(Some(fault)),
        kind: fault_kind(Some(fault)),
    }
}
