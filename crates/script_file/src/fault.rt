// Why a file is no script that can be read: the refusals of this layer.
ghost use Rattle.std.specs.Prelude.{◌≡◌, Some};
ghost use Rattle.script_file.specs.Faults.{fault_number, fault_offset, fault_reason, fault_text};

use std::error::Error;
use std::fmt;

// A fault of the file, with the byte offset at which the faulty part begins.
#[derive(Clone, Copy, PartialEq, Eq, Debug)]
pub enum FileFault {
    // A count, a type code or a node is not whole.
    Cut(u16),
    // A count is outside its limits.
    Count(u16),
    // A type code is above 5.
    TypeCode(u16),
    // Bytes follow the third section.
    Trailing(u16),
    // The file is right, but the caller's tables are too short for it.
    Room,
}

impl FileFault {
    pub fn number(self) -> u8
        ensures { result ≡ fault_number self }
    {
        match self {
            FileFault::Cut(_) => 1,
            FileFault::Count(_) => 2,
            FileFault::TypeCode(_) => 3,
            FileFault::Trailing(_) => 5,
            FileFault::Room => 6,
        }
    }

    pub fn offset(self) -> u16
        ensures { result ≡ fault_offset self }
    {
        match self {
            FileFault::Cut(at)
            | FileFault::Count(at)
            | FileFault::TypeCode(at)
            | FileFault::Trailing(at) => at,
            FileFault::Room => 0,
        }
    }

    // What is wrong, in words.
    pub fn reason(self) -> &'static str
        ensures { result.now ≡ fault_reason self }
    {
        match self {
            FileFault::Cut(_) => "a count, a type code or a node is not whole",
            FileFault::Count(_) => "a count is outside its limits",
            FileFault::TypeCode(_) => "a type code is above 5",
            FileFault::Trailing(_) => "bytes follow the last node",
            FileFault::Room => "the tables are too short for the script",
        }
    }
}

impl fmt::Display for FileFault {
    ghost output = { λ e. Some (fault_text e) };

    fn fmt<W: fmt::Write>(&self, f: &mut fmt::Formatter<W>) -> fmt::Result {
        let number = self.number();
        let offset = self.offset();
        let reason = self.reason();
        write!(f, "refusal {number} at byte {offset}: {reason}")
    }
}

impl Error for FileFault {}
