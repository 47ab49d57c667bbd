//! Plan texts that are printed. Their faults stand with the rows of whole runs.
ghost use Rattle.std.specs.Prelude.{IfSome};
ghost use Rattle.plan_text.specs.Reading.{HasPlanText};

use instance_text::read_instance;
use lock_model::{Instance, Plan};
use plan_text::{print_plan, read_plan};
use std::alloc::Global;
use std::test::Fail;

/// Two ships that lie side by side.
const SIDE: &[u8] =
    b"glock 1\nchamber c1 2000 240 10 20 5 4 30 15 low 0\nship s1 up 1100 114 0 5\nship s2 up 1100 114 0 5\nend\n";

const SIDE_PLAN: &[u8] =
    b"plan\nlockage c1 up 0\nberth s1 40 0 left *\nberth s2 40 126 right *\nend\n";

/// Plan texts, and what is printed of their plans.
const PRINTED: [(&[u8], &[u8]); 3] = [
    (SIDE_PLAN, SIDE_PLAN),
    (
        b"\r\nplan # two\r\n\tlockage c1 up 000\nberth s2 040 0126 right *\nberth s1 0040 0 left *\r\nend",
        SIDE_PLAN,
    ),
    (b"plan\nend\n", b"plan\nend\n"),
];

/// The plan of a text, if it is a plan text.
fn plan_of(instance: &Instance, text: &[u8]) -> Option<Plan>
    ensures { IfSome result (HasPlanText instance.now) }
{
    match read_plan(instance, text) {
        Ok(plan) => Some(plan),
        Err(_) => None,
    }
}

/// What is printed of the plan of a text.
fn printed(alloc: Global, text: &[u8]) -> Result<Vec<u8>, Fail> {
    let instance = read_instance(SIDE).map_err(|_| "no instance")?;
    let plan = plan_of(&instance, text).ok_or("no plan")?;
    print_plan(alloc, &instance, &plan).map_err(|_| "no memory".into())
}

#[test]
fn plans_are_printed(rt: HostRuntime) -> Result<(), Fail> {
    for (text, want) in PRINTED {
        assert!(rt; printed(rt.alloc(), text)?.as_slice() == want);
    }
    Ok(())
}
