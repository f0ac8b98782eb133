// What a call answers, as one number for C: yes or no, or the length written, or the refusal. Leans on meaning for the refusals and the
// calls' answers.
#![tactic(auto, unfolding(meaning::specs::Answers::code, crate::specs::Written::Short))]

ghost use Rattle.std.specs.Prelude.{◌≡◌};
ghost use Rattle.meaning.specs.Refusals.{number_of};
ghost use Rattle.meaning.specs.Answers.{number, code};
ghost use Rattle.said.specs.Told.{told};
ghost use Rattle.said.specs.Written as written;
ghost use Rattle.said.specs.Written.{Short};

use meaning::Refusal;

// Minus the refusal's number.
pub fn minus(refusal: Refusal) -> i32
    ensures { result ≡ code (number (number_of refusal)) }
{
    -(refusal as i32)
}

// 1 for yes, 0 for no, or minus the refusal's number.
pub fn coded(answer: Result<bool, Refusal>) -> i32
    ensures { result ≡ code (told answer) }
{
    match answer {
        Ok(true) => 1,
        Ok(false) => 0,
        Err(refusal) => minus(refusal),
    }
}

// The length written, or minus the refusal's number.
pub fn measured(answer: Result<usize, Refusal>) -> i32
    requires { Short (written.told answer) }
    ensures { result ≡ code (written.told answer) }
{
    match answer {
        Ok(long) => long as i32,
        Err(refusal) => minus(refusal),
    }
}
