// What is promised of fillings, sheets and slates: each function stands for the theorem that its contract names.
ghost use Rattle.printer.specs.Held.{OneSlate};
ghost use Rattle.printer.specs.Promise.{BoundValueReadsBack};

// A filling and its sheet hold one slate at most.
pub fn one_slate()
    ensures { OneSlate }
{}

// A value that is bound to a hole and printed reads back as that value.
pub fn bound_value_reads_back()
    ensures { BoundValueReadsBack }
{}
