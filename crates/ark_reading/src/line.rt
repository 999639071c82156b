//! A whole line.

ghost use Rattle.std.specs.Prelude.{◌≡◌, ◌≤◌, ℕ, List, length, Ok, Err, IfOk, MatchResult};
ghost use Rattle.ark_script.specs.Line.{line_of};
ghost use Rattle.ark_script.specs.Ranges.{InRange};
ghost use Rattle.ark_script.specs.Lines.{Meaning, Says, max_line};

use crate::form;
use ark_base::Refusal;
use ark_script::Step;

/// The most bytes of a line that is read, without its newline. A longer line is refused as too long.
pub const MAX_LINE: usize = 66_000;

/// What a line asks for. The line stands without its newline.
///
/// A line that begins with no word of the language is refused as unknown, and one that is not of its word's form as
/// wrong in syntax. Every number of a step is in its word's range, and so is every number of bytes.
pub fn read_line(line: &[u8]) -> Result<Step<'_>, Refusal>
    requires short { length line.now ≤ max_line }
    ensures means { MatchResult result (λ step. Says line.now (Ok (line_of step)))
        (λ refusal. Says line.now (Err refusal)) }
    ensures ranges { IfOk result (λ step. InRange (line_of step)) }
{
    form::read(line)
}

/// Each line means something, and nothing else.
pub fn one_meaning()
    ensures some { (line : List ℕ) → (m : Meaning) × Says line m }
    ensures only { (line : List ℕ) (m n : Meaning) → Says line m → Says line n → m ≡ n }
{}
