ghost use Rattle.schedule.specs.ReadingBack.{EntriesReadBack, ReadIsAhead, HeaderReadsBack, DayReadsBack};

// What is written one entry after the other reads back as those entries and then ends, and that is what a reader of it has
// ahead.
#[tactic(auto, using(crate::proofs::DayBack::entries_read_back, crate::proofs::DayBack::read_is_ahead))]
pub fn entries_read_back()
    ensures back { EntriesReadBack }
    ensures ahead { ReadIsAhead }
{}

// What is spelled as a header reads as that header, and with written entries behind it as a whole day.
#[tactic(auto, using(crate::proofs::HeaderBack::header_reads_back))]
pub fn header_reads_back()
    ensures header { HeaderReadsBack }
    ensures day { DayReadsBack }
{}
