// The verifier: reads a line that tells where the border is, a network's text and a sheet's text from standard input and prints whether
// the sheet holds, or the refusal. An input that is longer than the room gets no line: what is said of a sheet rests on its last byte too.
#![tactic(auto)]

ghost use Rattle.std.specs.Prelude.{◌≡◌};
ghost use Rattle.definitions.specs.Verify.{verify_text};

use input::{Complaints, Feature};

fn main(rt: HostRuntime) {
    let mut output = [0; verify::line::OUTPUT];
    let complaints = Complaints {
        unreadable: b"verifier: standard input cannot be read\n",
        too_long: Some(b"verifier: the input has more than 1000000 bytes\n"),
    };
    input::answer(
        rt,
        Feature::Verify,
        &mut input::long_room(),
        complaints,
        |text|
            ensures { result.now ≡ verify_text text.now }
        {
            let size = verify::line::verify(text, &mut output);
            &output[..size]
        },
    );
}
