// All that a program has to do with the outside: it reads standard input into a room of its own, hands over the text that is due, and
// complains. The programs name neither read nor write: tests/streams reads their text for it, since each has the runtime.
#![tactic(auto)]

ghost use Rattle.std.specs.Prelude.{◌≡◌, length, IfErr, IfOk, None};
ghost use Rattle.definitions.specs.Program.{input_room};
ghost use Rattle.input.specs.Counts.{IsPrefixLen};
ghost use Rattle.input.specs.declared.arrived.End.TheVariants.{Full};
ghost use Rattle.input.specs.Due.{text_of, room_of, Reaches};
ghost use Rattle.input.specs.Whole.{long_input_room, set_input_room};

mod arrived;
mod output;

pub use arrived::{Arrived, End, ReadFailure};
pub use output::{Feature, complain, complain_of_length, hand_over};
use std::io::Stdin;

// Three functions and not one with a length to choose: each contract ties its length to the definition that the programs' answers rest on.

// Room for every byte that can matter: the longest line in front of a network text has 22, and behind it no reading goes past
// byte 54,934. So an endless input is answered too, from its first 54,956 bytes.
const ROOM: usize = 54956;

pub fn room() -> [u8; ROOM]
    ensures { length result ≡ input_room }
{
    [0u8; ROOM]
}

// Room for a program whose answer rests on the last byte of its input too: a million bytes, and one that tells a longer input.
const LONG_ROOM: usize = 1000001;

pub fn long_room() -> [u8; LONG_ROOM]
    ensures { length result ≡ long_input_room }
{
    [0u8; LONG_ROOM]
}

// Room for every set of reports that can be taken: with its line in front the longest has 3,917,015 bytes, and one more tells a longer
// input.
const SET_ROOM: usize = 3917016;

pub fn set_room() -> [u8; SET_ROOM]
    ensures { length result ≡ set_input_room }
{
    [0u8; SET_ROOM]
}

// What a program says where it has no answer.
#[derive(Clone, Copy)]
pub struct Complaints<'a> {
    // Where standard input cannot be read.
    pub unreadable: &'a [u8],
    // Where the input fills the room. None: the answer rests on the front of the input alone.
    pub too_long: Option<&'a [u8]>,
}

// What every program does: reads its input into the room, has the text for it printed, and hands that over; or complains.
pub fn answer<'a, F: FnOnce(&[u8]) -> &'a [u8]>(
    rt: HostRuntime,
    feature: Feature,
    room: &mut [u8],
    complaints: Complaints,
    print: F,
)
    requires room { room_of feature ≡ length room.old }
    requires callable { F.IsAlwaysCallable print }
    requires prints { (input printed : _) → F.post print input printed → printed.now ≡ text_of feature input.now }
    requires front { complaints.too_long ≡ None → (room_of feature ≡ input_room) × Reaches (text_of feature) }
{
    let arrived = match read_all(&mut rt.stdin(), room) {
        Ok(arrived) => arrived,
        Err(_) => return complain(&mut rt.stderr(), complaints.unreadable),
    };
    if let (End::Full, Some(words)) = (arrived.end(), complaints.too_long) {
        return complain_of_length(&mut rt.stderr(), feature, arrived, words);
    }
    let printed = print(&room[..arrived.count()]);
    hand_over(&mut rt.stdout(), feature, arrived, printed);
}

// Reads until the buffer is full, the input ends or a read fails. How many reads that takes only the reads tell, so there is no range.
pub fn read_all(stdin: &mut Stdin, buffer: &mut [u8]) -> Result<Arrived, ReadFailure>
    ensures within { IfOk result (λ arrived. IsPrefixLen arrived.count buffer.new) }
    ensures failed { IfErr result (λ failure. IsPrefixLen failure.count buffer.new) }
    ensures full { IfOk result (λ arrived. arrived.end ≡ Full → arrived.count ≡ length buffer.old) }
{
    let mut size = 0;
    while size < buffer.len() {
        let last = arrived::read_more(stdin, buffer, size);
        let count = last?.count();
        if count == 0 {
            return Ok(arrived::ended_at(size, last));
        }
        size += count;
    }
    Ok(arrived::full_at(size, buffer))
}
