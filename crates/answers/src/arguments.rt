// The program's arguments. Its own name is the first of them.
ghost use Rattle.std.specs.Prelude.{◌<◌, ◌≤◌, length, IfSome};

use std::env::FillError;
use std::rt::Env;

// Is there an argument at this place?
fn is_argument(rt: &impl Env, place: usize) -> bool {
    !matches!(rt.arg(place, &mut []), Err(FillError::NotPresent))
}

// How many arguments there are.
pub fn argument_count(rt: &impl Env) -> usize {
    (0..usize::MAX)
        .position(|place| !is_argument(rt, place))
        .unwrap_or(usize::MAX)
}

// The bytes of an argument, held in `buffer`; none of one that is missing, empty or too long.
pub fn argument<'a>(rt: &impl Env, place: usize, buffer: &'a mut [u8]) -> Option<&'a [u8]>
    ensures some { IfSome result (λ text. 0 < length text.now) }
    ensures held { IfSome result (λ text. length text.now ≤ length buffer.old) }
{
    let length = rt.arg(place, buffer).unwrap_or(0);
    if length == 0 {
        return None;
    }
    Some(&buffer[..length])
}

// The same, of the one argument behind the program's name; none if there are more.
pub fn only_argument<'a>(rt: &impl Env, buffer: &'a mut [u8]) -> Option<&'a [u8]>
    ensures some { IfSome result (λ text. 0 < length text.now) }
    ensures held { IfSome result (λ text. length text.now ≤ length buffer.old) }
{
    if argument_count(rt) != 2 {
        return None;
    }
    argument(rt, 1, buffer)
}
