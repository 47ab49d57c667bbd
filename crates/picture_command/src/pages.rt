//! The page of a legal plan.
ghost use Rattle.std.specs.Prelude.{◌≡◌};
ghost use Rattle.lock_rules.specs.Plan.{IsLegal};
ghost use Rattle.day_play.specs.Lawful.{IsLawfulDay};
ghost use Rattle.day_play.specs.Playing.{day_of};
ghost use Rattle.run_answers.specs.Written.{bytes_in};
ghost use Rattle.picture_command.specs.Pictures.{TellsPicture};

use day_play::{Day, Played, play};
use lock_model::{Instance, Plan};
use no_memory::NoMemory;
use picture_page::{Dial, Known, print_picture};
use run_answers::{Answer, Status, Text, no_memory};
use std::alloc::Global;

/// The page of a legal plan and its day.
#[tactic(auto, using(crate::proofs::DayLemmas::day_goes, crate::proofs::DayLemmas::day_pictured))]
pub(crate) fn day_page(
    alloc: Global,
    dial: Dial,
    known: Known,
    instance: &Instance,
    plan: &Plan,
    day: &Day,
) -> Answer
    requires legal { IsLegal instance.now plan.now }
    requires lawful { IsLawfulDay instance.now plan.now day.now }
    requires played { day.now ≡ day_of instance.now plan.now }
    ensures { TellsPicture dial known instance.now plan.now result.status (bytes_in result.text) }
{
    match print_picture(alloc, known, dial, instance, plan, day.as_slice()) {
        Ok(page) => Answer {
            status: Status::Good,
            text: Text::Made(page),
        },
        Err(NoMemory) => no_memory(),
    }
}

/// The page of a legal plan, which is played for it.
pub(crate) fn plan_page(
    alloc: Global,
    dial: Dial,
    known: Known,
    instance: &Instance,
    plan: &Plan,
) -> Answer
    requires { IsLegal instance.now plan.now }
    ensures { TellsPicture dial known instance.now plan.now result.status (bytes_in result.text) }
{
    match play(instance, plan) {
        Played::Day(day) => day_page(alloc, dial, known, instance, plan, &day),
        Played::Stuck(_) => unreachable!(),
    }
}
