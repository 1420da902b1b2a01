//! What came of an example, as an object of JSON.
use std::alloc::{AllocError, Global};
use teco_json::{Member, Value, object};

/// What came of an example that was tried.
#[derive(Clone, Copy)]
pub struct ExampleReport<'a> {
    /// The file, and the line and the column where it begins.
    pub file: &'a [u8],
    pub line: u64,
    pub column: u64,
    /// The name of the macro's register.
    pub register: u8,
    pub has_passed: bool,
    /// What is said of one that fails.
    pub said: Option<&'a [u8]>,
}

impl ExampleReport<'_> {
    /// Its object, in a line.
    pub fn object(&self, alloc: Global) -> Result<Vec<u8>, AllocError> {
        let members = [
            Member {
                key: "file",
                value: Value::Text(self.file),
            },
            Member {
                key: "line",
                value: Value::Number(self.line),
            },
            Member {
                key: "column",
                value: Value::Number(self.column),
            },
            Member {
                key: "macro",
                value: Value::MaybeByte(Some(self.register)),
            },
            Member {
                key: "passed",
                value: Value::Truth(self.has_passed),
            },
            Member {
                key: "said",
                value: Value::MaybeText(self.said),
            },
        ];
        object(alloc, &members)
    }
}
