//! Files that cannot be read, and outputs that cannot be written.

mod broken_files;
mod broken_outputs;

/// The schedules of the commands over broken ends.
const SCHEDULE: &[u8] = b"block,rv,g,qm,nl,erase\n1,0,24,4,1,-\n";

/// Two rounds of one HARQ process.
const ROUNDS: &[u8] = b"block,rv,g,qm,nl,erase,flip,mask,process,fresh\n\
    1,0,24,4,1,-,-,all,3,1\n\
    1,0,32,1,1,-,-,all,3,1\n";
