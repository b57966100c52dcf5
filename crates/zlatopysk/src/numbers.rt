// Answers as numbers, and modes.
ghost use Rattle.std.specs.Prelude.{◌≡◌};
ghost use Rattle.refusal.specs.Refusal.{number_of};
ghost use Rattle.text_image.specs.Rules.{judged};
ghost use Rattle.planner.specs.Plan as plan;
ghost use Rattle.checker.specs.Answers as checks;
ghost use Rattle.card.specs.Call as calls;
ghost use Rattle.card.specs.Mains.{ending_of};
ghost use Rattle.zlatopysk.specs.Numbers.{numbers, read_numbers, plan_numbers, check_numbers};
ghost use Rattle.zlatopysk.specs.Numbers.{mode_number, mode_of, call_numbers, cut_numbers, restart_numbers};

use card::{Called, Restarted};
use checker::Checked;
use loader::Mode;
use refusal::{Refusal, Refused};

// A refusal at a place; it counts nothing.
pub fn refused(why: Refused) -> [u64; 3]
    ensures { result ≡ numbers (number_of why.refusal) why.place 0 }
{
    [u64::from(u8::from(why.refusal)), why.place as u64, 0]
}

pub fn of_read(answer: Result<(), Refused>) -> [u64; 3]
    ensures { result ≡ read_numbers (judged answer) }
{
    match answer {
        Ok(()) => [0, 0, 0],
        Err(why) => refused(why),
    }
}

pub fn of_plan(answer: Result<usize, Refused>) -> [u64; 3]
    ensures { result ≡ plan_numbers (plan.said answer) }
{
    match answer {
        Ok(length) => [0, 0, length as u64],
        Err(why) => refused(why),
    }
}

pub fn of_check(checked: Checked) -> [u64; 4]
    ensures { result ≡ check_numbers (checks.said checked.answer) checked.packets checked.unknown }
{
    let packets = checked.packets as u64;
    let unknown = checked.unknown as u64;
    let [number, place, _] = of_read(checked.answer);
    [number, place, packets, unknown]
}

// The C interface has modes as numbers; one other than 0, 1 and 2 counts as locked.
#[tactic(auto, unfolding(crate::specs::Numbers::mode_of))]
pub fn mode_of(number: u8) -> Mode
    ensures { result ≡ mode_of number }
{
    match number {
        0 => Mode::Application,
        2 => Mode::Unlocked,
        _ => Mode::Locked,
    }
}

fn mode_number(mode: Mode) -> u64
    ensures { result ≡ mode_number mode }
{
    match mode {
        Mode::Application => 0,
        Mode::Locked => 1,
        Mode::Unlocked => 2,
    }
}

// What a call is answered, 1 for a success, and the card behind it.
pub fn of_call(called: Called) -> [u64; 4]
    ensures { result ≡ call_numbers (calls.said called.answer) called.card.loader.mode }
{
    let mode = mode_number(called.card.loader.mode);
    match called.answer {
        Err(why) => [u64::from(u8::from(why)), 0, 0, mode],
        Ok(replied) => [0, replied.count as u64, u64::from(replied.success), mode],
    }
}

pub fn of_cut(answer: Result<(), Refusal>) -> [u64; 3]
    ensures { result ≡ cut_numbers (ending_of answer) }
{
    match answer {
        Err(why) => refused(Refused::from(why)),
        Ok(()) => [0, 0, 0],
    }
}

// What a restart is answered, and the card then.
pub fn of_restart(restarted: Restarted) -> [u64; 2]
    ensures { result ≡ restart_numbers (ending_of restarted.answer) restarted.card.loader.mode }
{
    let mode = mode_number(restarted.card.loader.mode);
    match restarted.answer {
        Err(why) => [u64::from(u8::from(why)), mode],
        Ok(()) => [0, mode],
    }
}
