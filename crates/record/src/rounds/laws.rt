ghost use Rattle.record.specs.Posting.{PostingAddsOne};

// What a posted round does before a twenty-first is dropped: the rounds stay in order, and there is exactly that one more.
pub fn posting_adds_one()
    ensures { PostingAddsOne }
{}
