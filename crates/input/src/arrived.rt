// What the reads of standard input brought. These values are made here alone, each by a function whose condition says when it may be
// said: that a read failed, that the input ended, that the room is full.
ghost use Rattle.std.specs.Prelude.{◌≡◌, ◌+◌, ◌≤◌, length, IfErr, IfOk, IsOkAnd};
ghost use Rattle.input.specs.declared.arrived.End.TheVariants as stop;

use std::io;
use std::io::{Read, Stdin};

// The read call answered with an error, where so many bytes had arrived.
#[derive(Clone, Copy, PartialEq, Eq)]
pub struct ReadFailure {
    count: usize,
}

impl ReadFailure {
    pub fn count(self) -> usize
        ensures { result ≡ self.count }
    {
        self.count
    }
}

// What one read brought: no byte where the input has ended.
#[derive(Clone, Copy, PartialEq, Eq)]
pub struct Got {
    count: usize,
}

impl Got {
    pub fn count(self) -> usize
        ensures { result ≡ self.count }
    {
        self.count
    }
}

// What the read call's answer means behind the first `size` bytes: so many more, or a failure where it is an error.
fn told(answer: io::Result<usize>, size: usize) -> Result<Got, ReadFailure>
    ensures brought { IfOk result (λ got. answer ≡ Ok got.count) }
    ensures counted { IfOk answer (λ count. IsOkAnd result (λ got. got.count ≡ count)) }
    ensures failed { IfErr result (λ failure. failure.count ≡ size) }
{
    match answer {
        Ok(count) => Ok(Got { count }),
        Err(_) => Err(ReadFailure { count: size }),
    }
}

// One read behind the first `size` bytes.
pub fn read_more(stdin: &mut Stdin, buffer: &mut [u8], size: usize) -> Result<Got, ReadFailure>
    requires { size ≤ length buffer.old }
    ensures within { IfOk result (λ got. size + got.count ≤ length buffer.new) }
    ensures failed { IfErr result (λ failure. failure.count ≡ size) }
    ensures same { length buffer.new ≡ length buffer.old }
{
    told(stdin.read(&mut buffer[size..]), size)
}

// Why the reads stopped: the input ended, or the room is full and nothing is known of the input's end.
#[derive(Clone, Copy, PartialEq, Eq)]
pub enum End {
    Ended,
    Full,
}

// What all the reads brought: how many bytes, and why there are no more.
#[derive(Clone, Copy, PartialEq, Eq)]
pub struct Arrived {
    count: usize,
    end: End,
}

impl Arrived {
    pub fn count(self) -> usize
        ensures { result ≡ self.count }
    {
        self.count
    }

    pub fn end(self) -> End
        ensures { result ≡ self.end }
    {
        self.end
    }
}

// The input ended: a read that did not fail brought nothing.
pub fn ended_at(size: usize, last: Result<Got, ReadFailure>) -> Arrived
    requires { IsOkAnd last (λ got. got.count ≡ 0) }
    ensures { (result.count ≡ size) × (result.end ≡ stop.Ended) }
{
    Arrived {
        count: size,
        end: End::Ended,
    }
}

// The room is full.
pub fn full_at(size: usize, buffer: &[u8]) -> Arrived
    requires { size ≡ length buffer.now }
    ensures { (result.count ≡ size) × (result.end ≡ stop.Full) }
{
    Arrived {
        count: size,
        end: End::Full,
    }
}
