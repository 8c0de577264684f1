// The cut between the text and the schedule of a replay's input.
ghost use Rattle.schedule.specs.Split.{IsSplit};

use crate::lines::first_line;

/// The text before the first line that is exactly `%%`, and the schedule behind that line. Without such a line all is text, and the schedule is empty.
pub fn split_input(input: &[u8]) -> (&[u8], &[u8])
    ensures split { IsSplit input.now result.0.now result.1.now }
{
    let mut at = 0;
    let mut rest = input;
    while !rest.is_empty() {
        let (line, more) = first_line(rest);
        if line == b"%%".as_slice() {
            return (&input[..at], more);
        }
        at += rest.len() - more.len();
        rest = more;
    }
    (input, &[])
}
