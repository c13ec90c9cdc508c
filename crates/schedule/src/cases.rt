// Worked files, as theorems about the layout and the faults.
ghost use Rattle.schedule.specs.Cases.{TheExampleReadsAsItsCalls, WorkedFilesHaveTheirFaults};

pub fn the_example_reads_as_its_calls()
    ensures { TheExampleReadsAsItsCalls }
{}

pub fn worked_files_have_their_faults()
    ensures { WorkedFilesHaveTheirFaults }
{}
