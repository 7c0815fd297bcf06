// The importer: reads a drawing in the DIMACS edge format from standard input and prints the network's own text, or the refusal. An
// input that is longer than the room gets nothing: what is said of a drawing rests on its last byte too.
#![tactic(auto)]

ghost use Rattle.std.specs.Prelude.{◌≡◌};
ghost use Rattle.definitions.specs.Import.{import_text};

use input::{Complaints, Feature};

mod convert;

fn main(rt: HostRuntime) {
    let mut output = [0; program::made::TEXT_ROOM];
    let complaints = Complaints {
        unreadable: b"importer: standard input cannot be read\n",
        too_long: Some(b"importer: the input has more than 1000000 bytes\n"),
    };
    input::answer(
        rt,
        Feature::Import,
        &mut input::long_room(),
        complaints,
        |text|
            ensures { result.now ≡ import_text text.now }
        {
            let size = convert::convert(text, &mut output);
            &output[..size]
        },
    );
}
