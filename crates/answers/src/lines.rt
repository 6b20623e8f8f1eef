// Answers as lines of text.
ghost use Rattle.std.specs.Prelude.{◌≡◌, ◌+◌, ◌*◌, ◌≤◌, List, ℕ, ◌++◌, length};
ghost use Rattle.arrayvec.specs.ArrayString.{array_string_len};
ghost use Rattle.answers.specs.Text.{line_text, ok_text, counts_text, normal_text, open_text, refusal_text};
ghost use Rattle.answers.specs.Text.{window_error_text, result_text, answer_lines};

use arrayvec::ArrayString;
use itoa::Buffer;
use sheets::refusals::{Counts, Refusal};
use windows::access::Access;
use windows::errors::WindowError;

// A line of text: a word, at most three numbers of twenty digits, and the line end.
pub type Line = ArrayString<80>;

// The lines of a batch: the first one, and at most 1,024 with a number and a line end.
pub type BatchText = ArrayString<21584>;

// What a line says.
pub trait Answer {
    ghost text: { Self → List ℕ };

    fn line(self) -> Line
        ensures { result.bytes ≡ text self };
}

// The line with a word and numbers.
pub fn line_of(word: &str, numbers: &[usize]) -> Line
    requires word { length word.now ≤ 7 }
    requires numbers { length numbers.now ≤ 3 }
    ensures { result.bytes ≡ line_text word.now numbers.now }
{
    let mut line = Line::new();
    line.push_str(word);
    for number in numbers {
        line.push_str(" ");
        line.push_str(Buffer::new().format(*number));
    }
    line.push_str("\n");
    line
}

impl Answer for usize {
    ghost text = { ok_text };

    fn line(self) -> Line {
        line_of("ok", &[self])
    }
}

impl Answer for Counts {
    ghost text = { counts_text };

    fn line(self) -> Line {
        line_of("ok", &[self.terms, self.contexts, self.lines])
    }
}

// Whether a term is normal.
impl Answer for bool {
    ghost text = { normal_text };

    fn line(self) -> Line {
        line_of(if self { "yes" } else { "no" }, &[])
    }
}

impl Answer for Access {
    ghost text = { open_text };

    fn line(self) -> Line {
        match self {
            Access::Open => line_of("open", &[]),
            Access::Closed => line_of("closed", &[]),
        }
    }
}

impl Answer for Refusal {
    ghost text = { refusal_text };

    fn line(self) -> Line {
        line_of("refused", &[self.fault.number(), self.place])
    }
}

// No place goes with these.
impl Answer for WindowError {
    ghost text = { window_error_text };

    fn line(self) -> Line {
        line_of("refused", &[self.number(), 0])
    }
}

impl<T: Answer, E: Answer> Answer for Result<T, E> {
    ghost text = { result_text T.text E.text };

    fn line(self) -> Line {
        match self {
            Ok(value) => value.line(),
            Err(error) => error.line(),
        }
    }
}

// Puts a line for each answer of a batch behind a text.
pub fn push_answers(text: &mut BatchText, answers: &[u16])
    requires { array_string_len text.old + 21 * length answers.now ≤ 21584 }
    ensures { text.new.bytes ≡ text.old.bytes ++ answer_lines answers.now }
{
    for answer in answers {
        text.push_str(Buffer::new().format(*answer));
        text.push_str("\n");
    }
}
