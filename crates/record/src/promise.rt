// What is promised of reader and writer: each function stands for the theorem that its contract names.
ghost use Rattle.record.specs.Law.{RefusedOrGood, ReaderAndWriterAgree};

// The writer refuses just the pairs that are no good record.
pub fn refused_or_good()
    ensures { RefusedOrGood }
{}

// Where pairs stand in written form, the reader refuses what the writer refuses, at the same place, and else gives the pairs back.
pub fn reader_and_writer_agree()
    ensures { ReaderAndWriterAgree }
{}
