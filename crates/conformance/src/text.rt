// The text of an input, from which lines are taken: read until there is no room for more, and what is left of it moved to the front.
ghost use Rattle.std.specs.Prelude.{◌≤◌, length};

use std::io::Read;

// Reads until the octets are full, the input ends or a read fails: how many were read.
pub(crate) fn read_full<R: Read>(input: &mut R, rest: &mut [u8]) -> usize
    ensures { result ≤ length rest.new }
{
    let mut n = 0;
    while n < rest.len() {
        match input.read(&mut rest[n..]) {
            Ok(0) | Err(_) => return n,
            Ok(more) => n += more,
        }
    }
    n
}

// Moves what stands from a place on to the front: how many octets that is. The beginning of a line that fills the whole text is dropped.
pub(crate) fn move_to_front(text: &mut [u8], from: usize) -> usize
    requires { from ≤ length text.old }
    ensures { result ≤ length text.old }
{
    if from == 0 {
        return 0;
    }
    text.copy_within(from.., 0);
    text.len() - from
}
