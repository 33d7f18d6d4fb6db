// The words for a failure of the system. A program says them itself: of what is said on a terminal no contract can speak.
#![tactic(auto)]

ghost use Rattle.std.specs.Prelude.{codes};
ghost use Rattle.failures.specs.Before.{IsBefore};

// The system's words for an error: std's text for it up to the error's number.
pub fn words(text: &str) -> &str
    ensures { IsBefore (codes " (os error ") text.now result.now }
{
    match text.split_once(" (os error ") {
        Some((words, _)) => words,
        None => text,
    }
}
