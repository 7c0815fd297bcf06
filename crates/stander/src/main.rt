// The stander: reads a line that tells where the border is and two reports of a relay from standard input and prints the report that
// stands, or the refusal. An input that is longer than the room gets no line: which report stands rests on its last byte too.
#![tactic(auto)]

ghost use Rattle.std.specs.Prelude.{◌≡◌};
ghost use Rattle.definitions.specs.Stands.{stands_text};

use input::{Complaints, Feature};

fn main(rt: HostRuntime) {
    let mut output = [0; stands::printed::OUTPUT];
    let complaints = Complaints {
        unreadable: b"stander: standard input cannot be read\n",
        too_long: Some(b"stander: the input has more than 1000000 bytes\n"),
    };
    input::answer(
        rt,
        Feature::Stands,
        &mut input::long_room(),
        complaints,
        |text|
            ensures { result.now ≡ stands_text text.now }
        {
            let size = stands::printed::stands(text, &mut output);
            &output[..size]
        },
    );
}
