// Reads the decimal numbers of a text, parted by any other byte, as words. A comment goes from # to its line's end.
ghost use Rattle.std.specs.Prelude.{◌≡◌, [], ◌∷◌, ◌*◌, ◌<◌, ◌≤◌, length};
ghost use Rattle.rules_demo.specs.Numbers.{place_behind, next_place, ended, numbers_in};
ghost use Rattle.rules_demo.specs.WordBuffer.{WordsPut};

use answers::failures::fail;
use answers::input::{CutShort, open_input, read_whole};
use std::rt::Files;

// Where a text's reader stands.
#[derive(Clone, Copy)]
pub enum Place {
    Blank,
    Comment,
    Number(u16),
}

// The place behind a byte that is in no comment, where `value` is what the digits before it spell.
fn behind(value: u16, byte: u8) -> Place
    ensures { result ≡ place_behind value byte }
{
    match byte {
        35 => Place::Comment,
        48..=57 => Place::Number(value.wrapping_mul(10).wrapping_add(u16::from(byte - 48))),
        _ => Place::Blank,
    }
}

// The place behind a byte.
fn next_place(place: Place, byte: u8) -> Place
    ensures { result ≡ next_place place byte }
{
    match place {
        Place::Blank => behind(0, byte),
        Place::Number(value) => behind(value, byte),
        Place::Comment => {
            if byte == 10 {
                return Place::Blank;
            }
            Place::Comment
        }
    }
}

// Puts a word behind the first `count`, if there is room, and answers how many there are then.
fn put(out: &mut [u8], count: usize, value: u16) -> usize
    requires { 2 * count ≤ length out.old }
    ensures { WordsPut out.old count (value ∷ []) out.new result }
{
    let at = 2 * count;
    if out.len() - at < 2 {
        return count;
    }
    let [low, high] = value.to_le_bytes();
    out[at] = low;
    out[at + 1] = high;
    count + 1
}

// Puts the number that ends between the two places, if one does.
fn put_ended(out: &mut [u8], count: usize, place: Place, next: Place) -> usize
    requires { 2 * count ≤ length out.old }
    ensures { WordsPut out.old count (ended place next) out.new result }
{
    let Place::Number(value) = place else {
        return count;
    };
    if let Place::Number(_) = next {
        return count;
    }
    put(out, count, value)
}

// Puts the numbers of a text, each with a byte behind it, as far as there is room, and answers how many they are.
fn put_all(text: &[u8], out: &mut [u8]) -> usize
    ensures { WordsPut out.old 0 (numbers_in text.now) out.new result }
{
    let mut count = 0;
    let mut place = Place::Blank;
    for i in 0..text.len() {
        let next = next_place(place, text[i]);
        count = put_ended(out, count, place, next);
        place = next;
    }
    count
}

// Puts the numbers of a file. No contract can say what is read, so that only the room is promised.
pub fn load(rt: &(impl Files + Eprint), path: &[u8], out: &mut [u8]) -> usize
    ensures { 2 * result ≤ length out.new }
{
    let mut text = [0u8; 65536];
    let mut file = match open_input(rt, path) {
        Ok(file) => file,
        Err(error) => {
            fail(rt, path, error);
            return 0;
        }
    };
    match read_whole(rt, &mut file, &mut text, path) {
        Ok(length) | Err(CutShort { length }) => put_all(&text[..length], out),
    }
}
