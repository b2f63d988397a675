// Why the printing of a sheet stops.
use files::fault::Fault;
use std::alloc::AllocError;
use std::io;

// A refusal, which the sheet prints, or a failure of writing or of memory, which the program reports.
#[derive(Drop)]
pub(crate) enum Stop {
    Refused(Fault),
    Failed(io::Error),
}

impl From<Fault> for Stop {
    fn from(fault: Fault) -> Stop {
        match fault {
            Fault::OutOfMemory => Stop::Failed(io::Error::from(io::ErrorKind::OutOfMemory)),
            _ => Stop::Refused(fault),
        }
    }
}

impl From<io::Error> for Stop {
    fn from(error: io::Error) -> Stop {
        Stop::Failed(error)
    }
}

impl From<AllocError> for Stop {
    fn from(error: AllocError) -> Stop {
        Stop::Failed(io::Error::from(error))
    }
}
