// The planner: reads a wish and a network text from standard input and prints the sheet, or the refusal.
#![tactic(auto)]

ghost use Rattle.std.specs.Prelude.{◌≡◌};
ghost use Rattle.definitions.specs.Plan.{plan_text};

use input::{Complaints, Feature};

fn main(rt: HostRuntime) {
    let mut output = plan::rooms::output();
    let complaints = Complaints {
        unreadable: b"planner: standard input cannot be read\n",
        too_long: None,
    };
    input::answer(
        rt,
        Feature::Plan,
        &mut input::room(),
        complaints,
        |text|
            ensures { result.now ≡ plan_text text.now }
        {
            let size = plan::plan(text, &mut output);
            &output[..size]
        },
    );
}
