// The reporter: reads a line with the number of relays and a set of reports from standard input and prints the network's own text, or the
// refusal. An input that is longer than the room gets nothing: what is said of a set rests on its last byte too.
#![tactic(auto)]

ghost use Rattle.std.specs.Prelude.{◌≡◌};
ghost use Rattle.definitions.specs.ReportSets.{reports_text};

use input::{Complaints, Feature};

mod convert;

fn main(rt: HostRuntime) {
    let mut output = [0; program::made::TEXT_ROOM];
    let complaints = Complaints {
        unreadable: b"reporter: standard input cannot be read\n",
        too_long: Some(b"reporter: the input has more than 3917015 bytes\n"),
    };
    input::answer(
        rt,
        Feature::Reports,
        &mut input::set_room(),
        complaints,
        |text|
            ensures { result.now ≡ reports_text text.now }
        {
            let size = convert::convert(text, &mut output);
            &output[..size]
        },
    );
}
