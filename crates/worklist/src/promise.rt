// What is promised of work lists, of the definitions alone: the function stands for the theorem that its contract names.
ghost use Rattle.worklist.specs.Law.{PromiseKept};

// The promise is kept for every sound host, every template that it accepts, and every list.
pub fn work_lists_kept()
    ensures { PromiseKept }
{}
