ghost use Rattle.transcript.specs.Playing.{AnswersAsTaken};
ghost use Rattle.transcript.specs.RoundsKept.{RoundsAsKept};

// What is answered to a command is what the record says to it, and the list that is told then is the one that it makes.
pub fn answers_as_taken()
    ensures { AnswersAsTaken }
{}

// What is printed of players' rounds: as many as are kept, and each with its day and amount.
pub fn rounds_as_kept()
    ensures { RoundsAsKept }
{}
