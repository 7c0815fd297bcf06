// Writing: the text that is due to standard output, and a complaint to standard error.
ghost use Rattle.std.specs.Prelude.{◌≤◌};
ghost use Rattle.input.specs.Due.{text_of, room_of, Due};

use crate::arrived::Arrived;
use std::io::{Stderr, Stdout, Write};

// What is asked for: each program has one, and says with it whose text is due.
#[derive(Clone, Copy, PartialEq, Eq)]
pub enum Feature {
    Plan,
    Keep,
    Verify,
    Import,
    Sure,
    Reports,
    Stands,
}

// Hands a text to the write call: it is due for an input of which so many bytes have arrived, and which ended with them if that was told.
pub fn hand_over(stdout: &mut Stdout, feature: Feature, arrived: Arrived, printed: &[u8])
    requires { Due (text_of feature) arrived.count arrived.end printed.now }
{
    match stdout.write_all(printed) {
        Ok(()) => {}
        Err(_) => {}
    }
}

// Tells that the input cannot be read.
pub fn complain(stderr: &mut Stderr, words: &[u8]) {
    match stderr.write_all(words) {
        Ok(()) => {}
        Err(_) => {}
    }
}

// Tells that the input is too long for a program that has to read all of it: it has filled the program's room.
pub fn complain_of_length(stderr: &mut Stderr, feature: Feature, arrived: Arrived, words: &[u8])
    requires { room_of feature ≤ arrived.count }
{
    match stderr.write_all(words) {
        Ok(()) => {}
        Err(_) => {}
    }
}
