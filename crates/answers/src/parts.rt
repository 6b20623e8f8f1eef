// Texts parted by a byte.
ghost use Rattle.std.specs.Prelude.{◌≡◌, ◌+◌, ◌≤◌, ◌<◌, min, length, drop};
ghost use Rattle.answers.specs.Counts.{IsPrefixLen};
ghost use Rattle.answers.specs.Parts.{up_to, past};

// The first place of `byte` from `from` on, or the end of the text.
pub fn place_of(text: &[u8], from: usize, byte: u8) -> usize
    requires { from ≤ length text.now }
    ensures value { result ≡ from + length (up_to byte (drop from text.now)) }
    ensures range { (from ≤ result) × IsPrefixLen result text.now }
{
    match text[from..].iter().position(|other| *other == byte) {
        Some(passed) => from + passed,
        None => text.len(),
    }
}

// Where the text goes on behind the place of a separator.
pub fn behind(text: &[u8], place: usize) -> usize
    requires { place ≤ length text.now }
    ensures { result ≡ min (place + 1) (length text.now) }
{
    if place < text.len() { place + 1 } else { place }
}

// The part of a text before the first such byte, all of it if there is none, and what stands behind that byte.
pub fn cut(text: &[u8], byte: u8) -> (&[u8], &[u8])
    ensures before { result.0.now ≡ up_to byte text.now }
    ensures behind { result.1.now ≡ past byte text.now }
{
    let place = place_of(text, 0, byte);
    (&text[..place], &text[behind(text, place)..])
}
