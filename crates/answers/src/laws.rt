// What holds of answers.
ghost use Rattle.answers.specs.Answers.{AnswersRoundTrip};

// Reading an answer and spelling it are inverse.
pub fn answers_round_trip()
    ensures { AnswersRoundTrip }
{}
