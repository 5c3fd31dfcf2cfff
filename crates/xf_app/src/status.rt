//! How a run ends.

/// How a run ended. The program's exit status is the number.
#[derive(Clone, Copy, Debug, PartialEq, Eq)]
pub enum Status {
    /// 0: the whole text was written, and no step was refused.
    Done,
    /// 1: the whole text was written, and a step at least was refused.
    DoneWithRefusals,
    /// 2: the words are not accepted; the usage line was written.
    Usage,
    /// 3: the board's file is refused; one line tells the cause.
    BoardRefused,
    /// 4: reading failed.
    ReadFault,
    /// 5: writing failed.
    WriteFault,
    /// 6: memory was refused.
    Memory,
    /// 7: the board or the session is not there; one line tells its name.
    Absent,
    /// 8: the board or the session has more bytes than a file may have; one line tells its name.
    TooLong,
}
