//! How answers are what an endpoint owes.
ghost use Rattle.rdm_answers.specs.Laws.{GivensGive, GreetingsGreet, OnlyGivenBytesCount, DuesAreOwed, WindowsAgree};

/// What a receive asks for, grants and ends with goes out as what its message makes owed. A greeting and the answer to an ask go out as such, and the answers that are owed stay what
/// they are while the sends that they give bytes of stay.
pub fn answers_law()
    ensures dues { DuesAreOwed }
    ensures windows { WindowsAgree }
    ensures greetings { GreetingsGreet }
    ensures givens { GivensGive }
    ensures bytes { OnlyGivenBytesCount }
{}
