// Decimal numbers in text.
ghost use Rattle.std.specs.Prelude.{◌≡◌};
ghost use Rattle.answers.specs.Numbers.{is_numeral, read_number, field_of, request_of};

use sheets::finding::Wanted;

// Is this a decimal number, of any number of digits?
pub fn is_numeral(text: &[u8]) -> bool
    ensures { result ≡ is_numeral text.now }
{
    !text.is_empty() && text.iter().all(|byte| byte.is_ascii_digit())
}

// The number that the decimal digits of a text spell, if it is below 2^64. std's `parse` also takes a plus sign.
#[tactic(auto, using(crate::proofs::NumberLaws::reading), unfolding(crate::specs::Numbers::is_digit))]
pub fn read_number(text: &[u8]) -> Option<usize>
    ensures { result ≡ read_number text.now }
{
    if text.is_empty() {
        return None;
    }
    let mut number: usize = 0;
    for byte in text {
        if !byte.is_ascii_digit() {
            return None;
        }
        let tens = number.checked_mul(10)?;
        number = tens.checked_add(usize::from(*byte - b'0'))?;
    }
    Some(number)
}

// A number as a judgment's fields hold it, below 2^32.
#[tactic(auto, unfolding(crate::specs::Numbers::field_of))]
pub fn field_of(number: Option<usize>) -> Option<u32>
    ensures { result ≡ field_of number }
{
    u32::try_from(number?).ok()
}

// The judgment with these five numbers, if all five were read.
#[tactic(auto, unfolding(crate::specs::Numbers::request_of))]
pub fn request_of(
    form: Option<u32>,
    context: Option<u32>,
    s1: Option<u32>,
    s2: Option<u32>,
    s3: Option<u32>,
) -> Option<Wanted>
    ensures { result ≡ request_of form context s1 s2 s3 }
{
    Some(Wanted {
        form: form?,
        context: context?,
        s1: s1?,
        s2: s2?,
        s3: s3?,
    })
}
