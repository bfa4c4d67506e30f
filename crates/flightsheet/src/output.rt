// That standard output can't be written.
use base::Refusal;
use std::io;

// Nothing more can be written.
#[derive(Clone, Copy, Debug, PartialEq, Eq)]
pub(crate) struct NotWritten;

impl From<io::Error> for NotWritten {
    fn from(_error: io::Error) -> NotWritten {
        NotWritten
    }
}

// Of a page that has no room in the buffer that it is written from.
impl From<Refusal> for NotWritten {
    fn from(_refusal: Refusal) -> NotWritten {
        NotWritten
    }
}
