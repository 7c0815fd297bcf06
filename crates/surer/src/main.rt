// The surer: reads a network text from standard input and prints the sheet for the last two relays of its order, the line where there is
// none, or the refusal.
#![tactic(auto)]

ghost use Rattle.std.specs.Prelude.{◌≡◌};
ghost use Rattle.definitions.specs.Sure.{sure_text};

use input::{Complaints, Feature};

fn main(rt: HostRuntime) {
    let mut output = plan::rooms::output();
    let complaints = Complaints {
        unreadable: b"surer: standard input cannot be read\n",
        too_long: None,
    };
    input::answer(
        rt,
        Feature::Sure,
        &mut input::room(),
        complaints,
        |text|
            ensures { result.now ≡ sure_text text.now }
        {
            let size = sure::sure(text, &mut output);
            &output[..size]
        },
    );
}
