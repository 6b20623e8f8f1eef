// Words of a sheet: two bytes each, low byte first.
ghost use Rattle.std.specs.Prelude.{◌≡◌, ◌+◌, ◌*◌, ◌<◌, length};
ghost use Rattle.terms.specs.Words.{word_at};

// The word at place `i`, counted in words.
#[tactic(auto, unfolding(crate::specs::Words::word_at))]
pub fn word_at(s: &[u8], i: usize) -> usize
    requires { 2 * i + 1 < length s.now }
    ensures value { result ≡ word_at s.now i }
    ensures range { result < 65536 }
{
    let at = 2 * i;
    usize::from(u16::from_le_bytes([s[at], s[at + 1]]))
}
