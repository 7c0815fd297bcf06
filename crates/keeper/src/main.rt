// The keeper: reads a line `(keep K)` and a network text from standard input and prints the list of links, or the refusal.
#![tactic(auto)]

ghost use Rattle.std.specs.Prelude.{◌≡◌};
ghost use Rattle.definitions.specs.Keep.{keep_text};

use input::{Complaints, Feature};

fn main(rt: HostRuntime) {
    let mut output = keep::rooms::output();
    let complaints = Complaints {
        unreadable: b"keeper: standard input cannot be read\n",
        too_long: None,
    };
    input::answer(
        rt,
        Feature::Keep,
        &mut input::room(),
        complaints,
        |text|
            ensures { result.now ≡ keep_text text.now }
        {
            let size = keep::keep(text, &mut output);
            &output[..size]
        },
    );
}
